// The quantiser: 32-bit float samples to the reliabilities of a row.
// `quantise` is offered to callers: it takes any input and promises what specs/Calls.antt says, each sample by specs/Quantise.antt.
// For the crates above: `quantise_one` of a sample that is a number, and `any_nan`.
// What a code is, and how long its row, is left to the crate `code`.
#![tactic(auto)]

ghost use Rattle.std.specs.Prelude.{◌≡◌, false, map, ◌^◌, ◌<◌, ◌≤◌, min, pos, length};
ghost use Rattle.std.specs.Float.{binary32};
ghost use Rattle.std.specs.Float.Ieee.{is_nan, of_bits, nan_bits};
ghost use Rattle.refusal.specs.Refusal.{number_of};
ghost use Rattle.code.specs.Choice.{choice_refusal, m_of};
ghost use Rattle.quantiser.specs.Quantise.{clip, nearest, rounded, quantised};
ghost use Rattle.quantiser.specs.Calls.{has_nan, quantise_refusal, QuantiseSays};

use code::{Choice, Shape};
use refusal::{Refusal, ensure};

// A float's bits are its sign, 8 bits of exponent and 23 bits of significand below the leading one.
const SIGN: u32 = 2147483648;

const LEADING: u32 = 8388608;

// The greatest size that a sample is given, which is at most that of a reliability.
const CLIP: u32 = 127;

// The whole number nearest to v / 2^24, a half going up.
fn halves_up(v: u32) -> u32
    requires { v < 2 ^ 31 }
    ensures { result ≡ nearest v 16777216 }
{
    (v + 8388608) / 16777216
}

// The float with the bits b, not negative, to the nearest whole number, halves up, then clipped. Below 1/2 (an exponent field of
// 126) it is 0, and from 128 (a field of 134) on it is clipped. Between these the float is q · 2^(e - 150), so q · 2^(e - 126) / 2^24.
#[tactic(auto, using(crate::proofs::Sizes::is_small, crate::proofs::Sizes::is_large))]
fn size_of(b: u32) -> u32
    requires positive { b < 2 ^ 31 }
    requires number { nan_bits binary32 b ≡ false }
    ensures value { pos result ≡ rounded 1 (of_bits binary32 b) }
    ensures bound { result ≤ clip }
{
    let e = b / LEADING;
    let q = LEADING + b % LEADING;
    if e < 126 {
        return 0;
    }
    if e >= 134 {
        return CLIP;
    }
    halves_up(q << (e - 126)).min(CLIP)
}

// A float to the nearest whole number, halves away from zero, then clipped.
fn round_clipped(y: f32) -> i16
    requires { is_nan y ≡ false }
    ensures { result ≡ rounded 1 y }
{
    let b = y.to_bits();
    let n = size_of(b % SIGN) as i16;
    if b < SIGN { n } else { -n }
}

// A sample quantised. The product by a power of two is exact; where the sample is 2^123 or more it is an infinity, which is clipped too.
pub fn quantise_one(x: f32) -> i16
    requires { is_nan x ≡ false }
    ensures { result ≡ quantised x }
{
    round_clipped(x * 32.0)
}

// Whether some sample is not a number.
pub fn any_nan(samples: &[f32]) -> bool
    ensures { result ≡ has_nan samples.now }
{
    samples.iter().any(|sample| sample.is_nan())
}

// What a call is refused by after its code.
#[tactic(auto, using(refusal::proofs::Results::stops, refusal::proofs::Results::goes_on), unfolding(crate::specs::Calls::quantise_refusal, refusal::specs::Refusal::unless))]
fn check_samples(shape: Shape, samples: &[f32], output: usize) -> Result<(), Refusal>
    ensures { number_of result ≡ quantise_refusal shape.m samples.now output }
{
    ensure(samples.len() == shape.bits, Refusal::RowLength)?;
    ensure(output == shape.bits, Refusal::Output)?;
    ensure(!any_nan(samples), Refusal::Sample)
}

// Each sample quantised into its place, by its index: of a row that `iter_mut().zip(..)` wrote, a proof knows the length alone.
fn fill(samples: &[f32], row: &mut [i16])
    requires length { length row.old ≡ length samples.now }
    requires numbers { has_nan samples.now ≡ false }
    ensures { row.new ≡ map quantised samples.now }
{
    for (i, sample) in samples.iter().enumerate() {
        row[i] = quantise_one(*sample);
    }
}

/// The n·m samples of a code's row to its reliabilities. Refuses by 1, 16, 2, 4 or 7, and leaves the row as it was then.
#[tactic(auto, using(crate::proofs::Outcomes::same_length, crate::proofs::Outcomes::all_numbers))]
pub fn quantise(choice: Choice, samples: &[f32], row: &mut [i16]) -> Result<(), Refusal>
    ensures { QuantiseSays (choice_refusal choice) (m_of choice) samples.now (number_of result) row.old row.new }
{
    let shape = choice.shape()?;
    check_samples(shape, samples, row.len())?;
    fill(samples, row);
    Ok(())
}
