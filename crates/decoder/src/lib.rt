// The decoder with its soft outputs. `decode` is offered to callers: it takes any input, a code by its number or by its m and r, and promises what
// specs/Calls.antt says, in the words of the crate metric.
#![tactic(auto)]

ghost use Rattle.std.specs.Prelude.{◌≡◌, length, pos};
ghost use Rattle.refusal.specs.Refusal.{number_of, value_or};
ghost use Rattle.code.specs.Choice.{choice_refusal, m_of, r_of};
ghost use Rattle.decoder.specs.Calls.{decode_refusal, DecodeSays};

use code::{Choice, Shape};
use refusal::{Refusal, ensure};

// The decoder: the first best word, its metric and the soft outputs of a row; the scratch is all 0 after it.
pub fn decode(
    choice: Choice,
    row: &[i16],
    word: &mut [u8],
    soft: &mut [i16],
    scratch: &mut [i32],
) -> Result<i32, Refusal>
    ensures { DecodeSays (choice_refusal choice) (m_of choice) (r_of choice) row.now (number_of result) (value_or (pos 0) result) word.old word.new soft.old soft.new scratch.old scratch.new }
{
    let shape = choice.shape()?;
    check_decode(shape, row, word.len(), soft.len(), scratch.len())?;
    let metric = decoding::decode_accepted(shape, row, word, soft, scratch);
    scratch.fill(0);
    Ok(metric)
}

// What a call is refused by after its code.
#[tactic(auto, using(refusal::proofs::Results::stops, refusal::proofs::Results::goes_on), unfolding(crate::specs::Calls::decode_refusal, refusal::specs::Refusal::unless))]
fn check_decode(
    shape: Shape,
    row: &[i16],
    word: usize,
    soft: usize,
    scratch: usize,
) -> Result<(), Refusal>
    ensures { number_of result ≡ decode_refusal shape.m row.now word soft scratch }
{
    ensure(row.len() == shape.bits, Refusal::RowLength)?;
    ensure(word == shape.n, Refusal::Output)?;
    ensure(soft == shape.bits, Refusal::Output)?;
    ensure(scratch == 16384, Refusal::Scratch)?;
    ensure(metric::is_row(metric::BOUND, row), Refusal::Reliability)
}
