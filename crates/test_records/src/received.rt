// Received symbols: rows worked out by hand, and the refusals in their order with the row kept. Kinds are written as a digit each.
// The samples 1.0, 1/64, -1/64 and 3.984375 are quantised to 32, 1, -1 and 127.
use code::Choice;
use refusal::Refusal;
use test_tally::parts;
use test_tally::tally::Tally;
use test_tally::words::Word;

const FOUR: [f32; 4] = [1.0, 0.015625, -0.015625, 3.984375];

// Twelve symbols of 21 bits: a pair, two lost bits, a single sample, a lost bit, two lost bits seven times, a lost bit.
const TWELVE: &[u8] = b"312011111110";

const KEPT: [i16; 21] = [9; 21];

pub fn agree() -> Tally {
    of_code_3(refusals(rows(Tally::default())))
}

fn rows(t: Tally) -> Tally {
    let mut u = gives(t, 1, TWELVE, &FOUR[..3], Ok(()), &row(32, 1, 0, 0, -1));
    // Lost bits alone; a sample between two lost bits.
    u = gives(u, 2, b"11111111110", &[], Ok(()), &[0; 21]);
    u = gives(
        u,
        2,
        b"020111111111",
        &FOUR[3..],
        Ok(()),
        &row(0, 127, 0, 0, 0),
    );
    // Two pairs; a pair between two samples; four samples.
    let four = row(32, 1, -1, 127, 0);
    u = gives(u, 1, b"33111111110", &FOUR, Ok(()), &four);
    u = gives(u, 2, b"232111111110", &FOUR, Ok(()), &four);
    gives(u, 1, b"2222111111110", &FOUR, Ok(()), &four)
}

fn refusals(t: Tally) -> Tally {
    let none = f32::NAN;
    let mut u = refused(t, 1, TWELVE, &[1.0, 0.0, none], Refusal::Sample);
    // With a sample that is not a number: one bit missing, one left over; one sample missing, one left over; nothing at all.
    u = refused(u, 1, b"31201111111", &[1.0, 0.0, none], Refusal::Fill);
    u = refused(u, 1, b"3120111111100", &[1.0, 0.0, none], Refusal::Fill);
    u = refused(u, 1, TWELVE, &[1.0, none], Refusal::Fill);
    u = refused(u, 1, TWELVE, &[1.0, 0.0, 0.0, none], Refusal::Fill);
    u = refused(u, 1, b"", &[], Refusal::Fill);
    // A kind of 4, in a row that it would fill as a pair and in one that it would not; then another output, and another code.
    u = refused(
        u,
        1,
        b"412011111110",
        &[1.0, 0.0, none],
        Refusal::SymbolKind,
    );
    u = refused(u, 1, b"34", &[none], Refusal::SymbolKind);
    u = gives(u, 1, b"34", &[none], Err(Refusal::Output), &KEPT[..20]);
    gives(u, 6, b"34", &[none], Err(Refusal::Code), &KEPT[..20])
}

fn refused(t: Tally, code: u32, kinds: &[u8], samples: &[f32], refusal: Refusal) -> Tally {
    gives(t, code, kinds, samples, Err(refusal), &KEPT)
}

// Two pairs with 28 symbols of two lost bits between them.
fn of_code_3(t: Tally) -> Tally {
    let mut kinds = [1u8; 30];
    kinds[0] = 3;
    kinds[29] = 3;
    let mut row = [0i16; 60];
    row[0] = 32;
    row[1] = 1;
    row[58] = -1;
    row[59] = 127;
    let mut space = [9i16; 60];
    let answer = receiver::receive(Choice::Number(3), &kinds, &FOUR, &mut space);
    t.with(answer == Ok(())).places(&space, &row, false)
}

// A row of zeros but for its first five entries.
fn row(a: i16, b: i16, c: i16, d: i16, e: i16) -> [i16; 21] {
    let mut row = [0i16; 21];
    row[0] = a;
    row[1] = b;
    row[2] = c;
    row[3] = d;
    row[4] = e;
    row
}

// The symbols received into a row of nines answer, and leave a row: a comparison a place.
fn gives(
    t: Tally,
    code: u32,
    kinds: &[u8],
    samples: &[f32],
    answer: Result<(), Refusal>,
    row: &[i16],
) -> Tally {
    let symbols = Word::new(kinds);
    let mut space = [9i16; 21];
    let left = parts::of_mut(&mut space, row.len());
    let found = receiver::receive(Choice::Number(code), symbols.symbols(), samples, left);
    t.with(found == answer).places(left, row, false)
}
