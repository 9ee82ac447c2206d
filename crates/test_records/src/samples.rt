// The quantiser: the samples on record, the edges beside them, and the refusals in their order with the row kept.
use code::Choice;
use refusal::Refusal;
use test_tally::parts;
use test_tally::tally::Tally;

// Samples by their bits: the four on record (1.0, 1/64, -1/64, 3.984375), both zeros, both infinities, the least subnormal, the floats
// next to 1/64 and to -1/64, 2.5/32, 126.5/32 with the floats next to it, the negatives of two of these, and the largest of both signs.
const SAMPLES: [u32; 21] = [
    0x3f800000, 0x3c800000, 0xbc800000, 0x407f0000, 0x00000000, 0x80000000, 0x7f800000, 0xff800000,
    0x00000001, 0x3c7fffff, 0x3c800001, 0xbc7fffff, 0xbc800001, 0x3da00000, 0x407cffff, 0x407d0000,
    0x407d0001, 0xc07cffff, 0xc07d0000, 0x7f7fffff, 0xff7fffff,
];

const QUANTISED: [i16; 21] = [
    32, 1, -1, 127, 0, 0, 127, -127, 0, 0, 1, 0, -1, 3, 126, 127, 127, -126, -127, 127, -127,
];

const KEPT: [i16; 21] = [9; 21];

pub fn agree() -> Tally {
    let samples = SAMPLES.map(float_of);
    let mut wrong = samples;
    wrong[20] = f32::NAN;
    let mut t = gives(Tally::default(), 1, &samples, Ok(()), &QUANTISED);
    t = gives(t, 2, &samples, Ok(()), &QUANTISED);
    t = gives(t, 6, &samples, Err(Refusal::Code), &KEPT);
    t = gives(t, 3, &samples, Err(Refusal::RowLength), &KEPT);
    t = gives(t, 1, &wrong, Err(Refusal::Sample), &KEPT);
    t = gives(t, 0, &wrong, Err(Refusal::Code), &KEPT);
    t = gives(t, 3, &wrong, Err(Refusal::RowLength), &KEPT);
    gives(t, 1, &wrong, Err(Refusal::Output), &KEPT[..20])
}

// The float with these bits; every NaN's bits give the one NaN.
#[tactic(auto, using(std::proofs::lemmas::Float::not_nan_f32_bits))]
fn float_of(bits: u32) -> f32 {
    if bits % 0x80000000 > 0x7f800000 {
        return f32::NAN;
    }
    f32::from_bits(bits)
}

// Quantising into a row of nines answers, and leaves a row: a comparison a place.
fn gives(t: Tally, code: u32, samples: &[f32], answer: Result<(), Refusal>, row: &[i16]) -> Tally {
    let mut space = [9i16; 21];
    let left = parts::of_mut(&mut space, row.len());
    let found = quantiser::quantise(Choice::Number(code), samples, left);
    t.with(found == answer).places(left, row, false)
}
