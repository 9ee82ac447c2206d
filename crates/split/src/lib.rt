// A word as m binary layers: their syndromes, the leaders of their cosets, and the split of a codeword.
// `split` is offered to callers: it takes any input, a code by its number or by its m and r, and promises what specs/Calls.antt says,
// by the definitions of specs/Split.antt. `leader` and `syndrome_of` are for the crates above. Which configurations are valid, and all of them by
// number, is left to the crate `configurations`; words and codes are the crate `code`'s.
#![tactic(auto)]

mod tables;

ghost use Rattle.std.specs.Prelude.{◌≡◌, true, ◌/◌, ◌%◌, ◌^◌, ◌≤◌, ◌<◌, length};
ghost use Rattle.refusal.specs.Refusal.{number_of, value_or};
ghost use Rattle.field.specs.Field.{width_good};
ghost use Rattle.code.specs.Code.{long};
ghost use Rattle.code.specs.Bits.{bits_of, row_long};
ghost use Rattle.code.specs.Choice.{choice_refusal, m_of, r_of};
ghost use Rattle.split.specs.Split.{layer, syndrome, syndromes, padded, Leader, sum};
ghost use Rattle.split.specs.Members.{where_odd, picked, rank, least_rank, foremost};
ghost use Rattle.split.specs.Within.{Columns};
ghost use Rattle.split.specs.Calls.{SplitRight, SplitSays, zeros};

use code::{Choice, Shape};
use refusal::Refusal;
use tables::{
    COLUMNS_3, COLUMNS_4, HEADS_3_6, HEADS_4_8, HEADS_4_10, ROWS_3_6, ROWS_4_8, ROWS_4_10,
    SINGLES_3, SINGLES_4,
};

// Splits a codeword: its configuration, and into the lent output of n·m places, layer 1 first, the BCH word that is left
// of each layer when its leader is added. A refused call keeps the output.
pub fn split(choice: Choice, word: &[u8], bch: &mut [u8]) -> Result<[u16; 4], Refusal>
    ensures { SplitSays (choice_refusal choice) (m_of choice) (r_of choice) word.now (number_of result) (value_or zeros result) bch.old bch.new }
{
    let shape = choice.shape()?;
    code::check_member(shape, word, bch.len(), shape.bits)?;
    let configuration = syndromes_of(shape, word);
    write_layers(shape, word, configuration, bch);
    Ok(configuration)
}

// The leader of a coset, bit i at position i. Where a syndrome has m bits, the words of weight 1 or 0 have each coset once, and lead.
pub fn leader(shape: Shape, s: u16) -> u16
    requires { s < shape.size }
    ensures { Leader shape.m shape.r s (bits_of (long shape.m) result) }
{
    match shape.q {
        3 => SINGLES_3[s as usize],
        4 => SINGLES_4[s as usize],
        6 => foremost(&HEADS_3_6, &ROWS_3_6, s),
        8 => foremost(&HEADS_4_8, &ROWS_4_8, s),
        _ => foremost(&HEADS_4_10, &ROWS_4_10, s),
    }
}

// The first member of coset s by weight and number: a member, by the heads, and its sums with every BCH word, by the rows.
#[tactic(auto, unfolding(crate::specs::Members::foremost))]
fn foremost(heads: &[u16], rows: &[u16], s: u16) -> u16
    requires { length rows.now ≤ 11 }
    ensures { result ≡ foremost heads.now rows.now s }
{
    let word = picked(heads, s.into());
    (least_rank(rows, word) % 32768) as u16
}

// The least rank of a word and of its sums with every BCH word.
fn least_rank(rows: &[u16], word: u16) -> u32
    requires { length rows.now ≤ 11 }
    ensures { result ≡ least_rank rows.now word (2 ^ length rows.now) }
{
    let mut best = rank(word);
    for k in 0..1 << rows.len() {
        best = best.min(rank(word ^ picked(rows, k)));
    }
    best
}

// The sum of the numbers of a table at the 1 bits of k.
fn picked(table: &[u16], k: u32) -> u16
    ensures { result ≡ picked table.now k }
{
    let mut sum = 0;
    let mut rest = k;
    for number in table {
        sum ^= where_odd(rest, *number);
        rest /= 2;
    }
    sum
}

// A number where the lowest bit of k is 1, else 0.
fn where_odd(k: u32, number: u16) -> u16
    ensures { result ≡ where_odd k number }
{
    if k % 2 == 0 { 0 } else { number }
}

// A word's place among others: by its weight, and then by its number.
#[tactic(auto, unfolding(crate::specs::Members::rank))]
fn rank(x: u16) -> u32
    ensures { result ≡ rank x }
{
    let word = u32::from(x);
    32768 * word.count_ones() + word
}

// The bit of a symbol in layer j.
fn bit(c: u8, j: u32) -> u8
    requires { j < 4 }
    ensures { result ≡ c / 2 ^ j % 2 }
{
    (c >> j) % 2
}

// The columns of a layer's parity checks with six roots.
fn columns_of(m: u32) -> [u16; 15]
    requires { width_good m ≡ true }
    ensures { Columns m result }
{
    if m == 3 { COLUMNS_3 } else { COLUMNS_4 }
}

// The syndrome of layer j of a word: the sum of the columns of its 1 bits, as far as the roots go.
pub fn syndrome_of(shape: Shape, j: u32, word: &[u8]) -> u16
    requires count { length word.now ≡ long shape.m }
    requires inside { j < shape.m }
    ensures { result ≡ syndrome shape.m shape.r (layer j word.now) }
{
    let columns = columns_of(shape.m);
    let mut sum = 0;
    for (symbol, column) in word.iter().zip(&columns) {
        sum ^= where_odd(bit(*symbol, j).into(), *column);
    }
    sum % shape.size as u16
}

// The configuration of a word: the syndromes of its layers; with m = 3 the fourth place is 0.
fn syndromes_of(shape: Shape, word: &[u8]) -> [u16; 4]
    requires { length word.now ≡ long shape.m }
    ensures { result ≡ padded (syndromes shape.m shape.r word.now) }
{
    let mut to = [0; 4];
    for j in 0..shape.m {
        to[j as usize] = syndrome_of(shape, j, word);
    }
    to
}

// What is left of layer j when a leader is added.
fn write_layer(j: u32, leader: u16, word: &[u8], out: &mut [u8])
    requires layer { j < 4 }
    requires room { length out.old ≡ length word.now }
    ensures { out.new ≡ sum (layer j word.now) (bits_of (length word.now) leader) }
{
    let mut rest = leader;
    for (i, symbol) in word.iter().enumerate() {
        out[i] = field::add(bit(*symbol, j), (rest % 2) as u8);
        rest /= 2;
    }
}

// What is left of each layer when its leader is added, layer 1 first.
fn write_layers(shape: Shape, word: &[u8], configuration: [u16; 4], bch: &mut [u8])
    requires count { length word.now ≡ long shape.m }
    requires tuple { configuration ≡ padded (syndromes shape.m shape.r word.now) }
    requires room { length bch.old ≡ row_long shape.m }
    ensures { SplitRight shape.m shape.r word.now configuration bch.new }
{
    let n = word.len();
    // By index: of a list whose pieces `chunks_exact_mut` lends a proof knows the length alone.
    for j in 0..shape.m {
        let at = j as usize * n;
        let lead = leader(shape, configuration[j as usize]);
        write_layer(j, lead, word, &mut bch[at..at + n]);
    }
}
