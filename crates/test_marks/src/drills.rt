// Practice sheets: the first reliabilities from the least and the greatest seed, a sheet of two questions byte by byte, the same drawn one after the
// other, no questions, 200 of them, and the refusals in their order with the output kept. Worked out by a program of its own.
use practice::Generator;
use refusal::Refusal;
use test_tally::parts;
use test_tally::tally::Tally;

// Two questions of code 1 from the greatest seed: of each a head, seven words of reliabilities and two of zero symbols; then the end.
const TWO: [u8; 84] = [
    1, 0, 0, 17, 206, 26, 70, 32, 180, 174, 11, 32, 234, 231, 64, 32, 220, 55, 150, 32, 54, 84, 1,
    32, 77, 46, 255, 32, 185, 55, 175, 32, 0, 0, 0, 48, 0, 0, 0, 48, 2, 0, 0, 17, 237, 242, 171,
    32, 105, 237, 223, 32, 40, 152, 131, 32, 200, 26, 225, 32, 219, 157, 125, 32, 101, 240, 253,
    32, 238, 36, 221, 32, 0, 0, 0, 48, 0, 0, 0, 48, 2, 0, 0, 240,
];

pub fn agree() -> Tally {
    let mut t = draws(
        Tally::default(),
        0,
        [-51, 23, 71, -81, -83, 12, -21, -34],
        0xf1bbcdc8,
    );
    t = draws(
        t,
        u32::MAX,
        [-50, 26, 70, -76, -82, 11, -22, -25],
        0xf1bbcdc7,
    );
    t = gives(t, 1, 2, u32::MAX, Ok(0xf519f859), &TWO);
    refusals(sizes(one_after_the_other(t)))
}

// The first eight reliabilities from a seed, and the state after them.
fn draws(t: Tally, seed: u32, expected: [i16; 8], state: u32) -> Tally {
    let mut generator = Generator { state: seed };
    let mut row = [9i16; 8];
    generator.draw_row(&mut row);
    t.with(generator.state == state)
        .places(&row, &expected, false)
}

// The first of the two questions by itself, and from the state after it the row of the second.
fn one_after_the_other(t: Tally) -> Tally {
    let mut first = [9u8; 44];
    let found = practice::draw_sheet(1, 1, u32::MAX, &mut first);
    let u = t
        .with(found.err() == None)
        .with(found.ok() == Some(0xfa8cfc2c))
        .with(parts::of(&first, 40) == parts::of(&TWO, 40));
    draws(
        u,
        found.unwrap_or(0),
        [-19, -14, -85, 105, -19, -33, 40, -104],
        0xec48c9f4,
    )
}

// No questions leave the state as it is; the longest sheet is written and judged.
fn sizes(t: Tally) -> Tally {
    let u = gives(t, 3, 0, 7, Ok(7), &[0, 0, 0, 0xf0]);
    let mut longest = [9u8; 19204];
    let found = practice::draw_sheet(5, 200, 0, &mut longest);
    u.with(found.err() == None)
        .with(found.ok() == Some(0x6869bfe0))
        .with(sheet::judge_sheet(&longest) == Ok(200))
}

// More than 200 questions, then the code, even for none, then the output.
fn refusals(t: Tally) -> Tally {
    let mut u = keeps(t, 0, 201, 3, Refusal::Count);
    u = keeps(u, 6, u32::MAX, 3, Refusal::Count);
    u = keeps(u, 0, 0, 3, Refusal::Code);
    u = keeps(u, 6, 0, 4, Refusal::Code);
    u = keeps(u, 6, 200, 3, Refusal::Code);
    u = keeps(u, 1, 1, 43, Refusal::Output);
    u = keeps(u, 1, 1, 45, Refusal::Output);
    u = keeps(u, 3, 1, 44, Refusal::Output);
    keeps(u, 3, 0, 0, Refusal::Output)
}

// Drawing so many questions of a code into n nines is refused, and keeps them.
fn keeps(t: Tally, code: u32, count: u32, n: usize, refusal: Refusal) -> Tally {
    gives(t, code, count, 7, Err(refusal), parts::of(&[9; 84], n))
}

// Drawing so many questions of a code from a seed answers a state, or a refusal, and leaves an output where so many nines were.
fn gives(
    t: Tally,
    code: u32,
    count: u32,
    seed: u32,
    answer: Result<u32, Refusal>,
    output: &[u8],
) -> Tally {
    let mut space = [9u8; 84];
    let left = parts::of_mut(&mut space, output.len());
    let found = practice::draw_sheet(code, count, seed, left);
    t.with(found.err() == answer.err())
        .with(found.ok() == answer.ok())
        .with(&*left == output)
}
