// BCH words and a configuration, as the split of a codeword leaves them, joined to the codeword again.
// `join` is offered to callers: it takes any input, a code by its number or by its m and r, and promises what specs/Calls.antt says.
// Syndromes and leaders are the crate `split`'s, and the codeword test is the crate `code`'s: with every syndrome in range, a configuration is valid exactly
// where what is joined by it is a codeword.
#![tactic(auto)]

ghost use Rattle.std.specs.Prelude.{◌≡◌, true, ◌<◌, length, take};
ghost use Rattle.refusal.specs.Refusal.{number_of, unless, Outcome};
ghost use Rattle.code.specs.Code.{long};
ghost use Rattle.code.specs.Bits.{bits_of, row_long};
ghost use Rattle.code.specs.Choice.{choice_refusal, m_of, r_of};
ghost use Rattle.split.specs.Split.{valid, all_below, sum};
ghost use Rattle.join.specs.Calls.{is_bch, all_bch, in_range, JoinRight, JoinSays};
ghost use Rattle.join.specs.Within.{parts_refusal, with_layer, Joinable, Joined};

use code::{Choice, Shape};
use refusal::{Refusal, ensure};

// Writes the codeword whose layer j is BCH word j plus the leader of the configuration's place j into an output of n symbols. The BCH words are lent end to
// end, layer 1 first. A refused call writes nothing.
pub fn join(
    choice: Choice,
    configuration: [u16; 4],
    bch: &[u8],
    output: &mut [u8],
) -> Result<(), Refusal>
    ensures { JoinSays (choice_refusal choice) (m_of choice) (r_of choice) configuration bch.now (number_of result) output.old output.new }
{
    let shape = choice.shape()?;
    check_parts(shape, configuration, bch, output.len())?;
    let mut room = [0; 15];
    join_through(shape, configuration, bch, &mut room[..shape.n], output)
}

// `join` of parts that are not refused yet, through a lent word of zeros: the configuration is valid where the word is a codeword.
fn join_through(
    shape: Shape,
    configuration: [u16; 4],
    bch: &[u8],
    word: &mut [u8],
    output: &mut [u8],
) -> Result<(), Refusal>
    requires joinable { Joinable shape.m shape.r configuration bch.now word.old }
    requires room { length output.old ≡ long shape.m }
    ensures { Outcome (unless (valid shape.m shape.r (take shape.m configuration)) 19 0) (number_of result) (JoinRight shape.m shape.r configuration bch.now output.new) (output.new ≡ output.old) }
{
    write_word(shape, configuration, bch, word);
    if !code::is_codeword(shape.m, shape.r, word) {
        return Err(Refusal::Configuration);
    }
    hand_over(word, output);
    Ok(())
}

// What is refused before anything is joined.
#[tactic(auto, using(refusal::proofs::Results::stops, refusal::proofs::Results::goes_on), unfolding(crate::specs::Within::parts_refusal, refusal::specs::Refusal::unless))]
fn check_parts(
    shape: Shape,
    configuration: [u16; 4],
    bch: &[u8],
    output: usize,
) -> Result<(), Refusal>
    ensures { number_of result ≡ parts_refusal shape.m shape.r configuration bch.now output }
{
    ensure(bch.len() == shape.bits, Refusal::WordLength)?;
    ensure(output == shape.n, Refusal::Output)?;
    ensure(all_bch(shape, bch), Refusal::NoBchWord)?;
    ensure(in_range(shape, configuration), Refusal::Configuration)
}

// Whether each layer's word is a BCH word.
fn all_bch(shape: Shape, bch: &[u8]) -> bool
    requires { length bch.now ≡ row_long shape.m }
    ensures { result ≡ all_bch shape.m 0 shape.m shape.r bch.now }
{
    for values in bch.chunks_exact(shape.n) {
        if !is_bch(shape, values) {
            return false;
        }
    }
    true
}

// Whether n values are a BCH word: 0 and 1 alone, with syndrome 0.
fn is_bch(shape: Shape, values: &[u8]) -> bool
    requires { length values.now ≡ long shape.m }
    ensures { result ≡ is_bch shape.m shape.r values.now }
{
    code::symbols_good(1, values) && split::syndrome_of(shape, 0, values) == 0
}

// Whether the first m places are syndromes, and any other is 0.
fn in_range(shape: Shape, places: [u16; 4]) -> bool
    ensures { result ≡ in_range shape.m shape.r places }
{
    let (syndromes, rest) = places.split_at(shape.m as usize);
    syndromes
        .iter()
        .all(|place| usize::from(*place) < shape.size)
        && rest.iter().all(|place| *place == 0)
}

// The word whose layers are the BCH words with their leaders added, into zeros.
fn write_word(shape: Shape, configuration: [u16; 4], bch: &[u8], word: &mut [u8])
    requires { Joinable shape.m shape.r configuration bch.now word.old }
    ensures { Joined shape.m shape.r configuration bch.now word.new }
{
    let n = shape.n;
    for j in 0..shape.m {
        let at = j as usize * n;
        let leader = split::leader(shape, configuration[j as usize]);
        write_layer(j, leader, &bch[at..at + n], word);
    }
}

// Puts bits with a leader added in as layer j.
fn write_layer(j: u32, leader: u16, bits: &[u8], word: &mut [u8])
    requires layer { j < 8 }
    requires room { length word.old ≡ length bits.now }
    ensures { word.new ≡ with_layer j word.old (sum bits.now (bits_of (length bits.now) leader)) }
{
    let mut rest = leader;
    for (i, bit) in bits.iter().enumerate() {
        word[i] = field::add(word[i], field::add(*bit, (rest % 2) as u8) << j);
        rest /= 2;
    }
}

// Symbols below 16, copied. The remainder changes none of them: without it the compiler would call memcpy of the C library, which no other call needs.
fn hand_over(from: &[u8], to: &mut [u8])
    requires room { length from.now ≡ length to.old }
    requires symbols { all_below 16 from.now ≡ true }
    ensures { to.new ≡ from.now }
{
    for (i, symbol) in from.iter().enumerate() {
        to[i] = *symbol % 16;
    }
}
