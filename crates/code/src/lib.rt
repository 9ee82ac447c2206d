// Reed-Solomon codes of 2^m - 1 symbols with roots α to α^r: encoder, message reader and codeword test.
// `encode`, `read_word` and `check_word` are offered to callers: they take any input, a code by its number or by its m and r, and promise what
// specs/Calls.antt says.
// For the crates above: `Choice::shape` and `Shape::numbered`, which turn a code's number, or its m and r, into the numbers that follow from them,
// `check_member`, and `symbols_good` and `is_codeword` on words that have the right length. Layers and syndromes are left to the crate `split`.
#![tactic(auto)]

ghost use Rattle.std.specs.Prelude.{◌≡◌, ◌++◌, ◌+◌, ◌<◌, length, take, drop};
ghost use Rattle.refusal.specs.Refusal.{number_of};
ghost use Rattle.code.specs.Code.{value_at, symbols_good, is_codeword};
ghost use Rattle.code.specs.Choice.{choice_refusal, m_of, r_of};
ghost use Rattle.code.specs.Division.{tails, product, spread, divided, multiplied};
ghost use Rattle.code.specs.Calls.{encode_refusal, EncodeSays, member_refusal, ReadSays, check_refusal, CheckSays};
ghost use Rattle.code.specs.Within.{WordWithin, PartWithin, PlaceWithin, QuotientWithin, MessageWithin, Carries};

mod shape;

use field::FieldTables;
use refusal::{Refusal, ensure};
pub use shape::{Choice, Shape};

// Writes the codeword of a message into `output`, or refuses and writes nothing.
pub fn encode(choice: Choice, message: &[u8], output: &mut [u8]) -> Result<(), Refusal>
    ensures { EncodeSays (choice_refusal choice) (m_of choice) (r_of choice) message.now (number_of result) output.old output.new }
{
    let shape = choice.shape()?;
    check_message(shape, message, output.len())?;
    write_codeword(shape.m, shape.r, message, output);
    Ok(())
}

// Writes the message of a codeword into `output`, or refuses and writes nothing.
pub fn read_word(choice: Choice, word: &[u8], output: &mut [u8]) -> Result<(), Refusal>
    ensures { ReadSays (choice_refusal choice) (m_of choice) (r_of choice) word.now (number_of result) output.old output.new }
{
    let shape = choice.shape()?;
    check_member(shape, word, output.len(), shape.k)?;
    let r = shape.r as usize;
    copy(&word[r..], output);
    Ok(())
}

// Whether a word is a codeword.
pub fn check_word(choice: Choice, word: &[u8]) -> Result<bool, Refusal>
    ensures { CheckSays (choice_refusal choice) (m_of choice) (r_of choice) word.now result }
{
    let shape = choice.shape()?;
    check_symbols(shape, word)?;
    Ok(is_codeword(shape.m, shape.r, word))
}

// What encoding is refused by after the code.
#[tactic(auto, using(refusal::proofs::Results::stops, refusal::proofs::Results::goes_on, crate::proofs::Accepted::narrow), unfolding(crate::specs::Calls::encode_refusal, refusal::specs::Refusal::unless))]
fn check_message(shape: Shape, message: &[u8], output: usize) -> Result<(), Refusal>
    ensures { number_of result ≡ encode_refusal shape.m shape.r message.now output }
{
    ensure(message.len() == shape.k, Refusal::WordLength)?;
    ensure(output == shape.n, Refusal::Output)?;
    ensure(symbols_good(shape.m, message), Refusal::Symbol)
}

// What a word that is to be a codeword is refused by, with an output that needs so many places.
#[tactic(auto, using(refusal::proofs::Results::stops, refusal::proofs::Results::goes_on, crate::proofs::Accepted::narrow), unfolding(crate::specs::Calls::member_refusal, crate::specs::Calls::word_refusal, refusal::specs::Refusal::first, refusal::specs::Refusal::unless))]
pub fn check_member(shape: Shape, word: &[u8], output: usize, needed: usize) -> Result<(), Refusal>
    ensures { number_of result ≡ member_refusal shape.m shape.r word.now output needed }
{
    ensure(word.len() == shape.n, Refusal::WordLength)?;
    ensure(output == needed, Refusal::Output)?;
    ensure(symbols_good(shape.m, word), Refusal::Symbol)?;
    ensure(is_codeword(shape.m, shape.r, word), Refusal::NoCodeword)
}

// What the codeword test is refused by after the code.
#[tactic(auto, using(refusal::proofs::Results::stops, refusal::proofs::Results::goes_on, crate::proofs::Accepted::narrow), unfolding(crate::specs::Calls::check_refusal, refusal::specs::Refusal::unless))]
fn check_symbols(shape: Shape, word: &[u8]) -> Result<(), Refusal>
    ensures { number_of result ≡ check_refusal shape.m word.now }
{
    ensure(word.len() == shape.n, Refusal::WordLength)?;
    ensure(symbols_good(shape.m, word), Refusal::Symbol)
}

// Whether every symbol is below 2^m.
pub fn symbols_good(m: u32, word: &[u8]) -> bool
    requires { m < 8 }
    ensures { result ≡ symbols_good m word.now }
{
    let top = (1u32 << m) as u8;
    word.iter().all(|&c| c < top)
}

// The value of a word at α^t by Horner's rule, with the tables of its field.
fn value(tables: FieldTables<'_>, t: usize, word: &[u8]) -> u8
    requires { WordWithin tables.m t word.now }
    ensures { result ≡ value_at tables.entry.m t word.now }
{
    let mut v = 0;
    for i in (0..word.len()).rev() {
        v = field::add(word[i], tables.times_power(v, t));
    }
    v
}

// Whether a word of n symbols has the roots α to α^r.
pub fn is_codeword(m: u32, r: u32, word: &[u8]) -> bool
    requires { WordWithin m r word.now }
    ensures { result ≡ is_codeword m r word.now }
{
    let tables = FieldTables::of(m);
    for t in 1..r as usize + 1 {
        if value(tables, t, word) != 0 {
            return false;
        }
    }
    true
}

// A copy.
fn copy(from: &[u8], to: &mut [u8])
    requires { length from.now ≡ length to.old }
    ensures { to.new ≡ from.now }
{
    for i in 0..from.len() {
        to[i] = from[i];
    }
}

// Division by X + x: each symbol becomes the value at x of the part from it on.
fn divide_out(m: u32, x: u8, part: &mut [u8])
    requires { PartWithin m x part.old }
    ensures { part.new ≡ tails m x part.old }
{
    let mut v = 0;
    for i in (0..part.len()).rev() {
        v = field::add(part[i], field::multiply(m, x, v));
        part[i] = v;
    }
}

// The product by X + x of what follows the first symbol, with that symbol added: to each is added x times the next.
fn multiply_in(m: u32, x: u8, part: &mut [u8])
    requires { PartWithin m x part.old }
    ensures { part.new ≡ spread m x part.old }
{
    let mut next = 0;
    for i in (0..part.len()).rev() {
        let c = part[i];
        part[i] = field::add(c, field::multiply(m, x, next));
        next = c;
    }
}

// A message divided by X + α, then by X + α^2, and so on to α^r.
fn divide_all(m: u32, r: u32, part: &mut [u8])
    requires { PartWithin m r part.old }
    ensures { part.new ≡ divided m r part.old }
{
    for t in 0..r {
        divide_out(m, field::power(m, t + 1), part);
    }
}

// What stands after a place, multiplied by X + x, from that place on.
fn multiply_at(m: u32, x: u8, at: usize, out: &mut [u8])
    requires { PlaceWithin m x at out.old }
    ensures { out.new ≡ take at out.old ++ product m x 0 (drop (at + 1) out.old) }
{
    out[at] = 0;
    multiply_in(m, x, &mut out[at..]);
}

// What stands from place r on, multiplied by X + α^r, then by X + α^(r-1), and so on to α, each from one place further down.
fn multiply_all(m: u32, r: u32, out: &mut [u8])
    requires { QuotientWithin m r out.old }
    ensures { out.new ≡ multiplied m r (drop r out.old) }
{
    for t in (0..r).rev() {
        multiply_at(m, field::power(m, t + 1), t as usize, out);
    }
}

// A message divided by every X + α^t, in a part of its length.
fn write_quotient(m: u32, r: u32, message: &[u8], part: &mut [u8])
    requires part_within { PartWithin m r message.now }
    requires message_len { length message.now ≡ length part.old }
    ensures { part.new ≡ divided m r message.now }
{
    copy(message, part);
    divide_all(m, r, part);
}

// The codeword of a message that is not refused: divided by X + α^t for t from 1 to r, and multiplied by them again with a zero
// put before it each time, the message stays where it is and the word has those roots.
fn write_codeword(m: u32, r: u32, message: &[u8], output: &mut [u8])
    requires { MessageWithin m r message.now (length output.old) }
    ensures { Carries m r message.now output.new }
{
    let k = r as usize;
    write_quotient(m, r, message, &mut output[k..]);
    multiply_all(m, r, output);
}
