// The rows of the comparison.

// A row, and its hard decisions: a word with a 1 where the reliability is negative.
#[derive(Clone, Copy)]
pub struct Row {
    pub row: [i16; 21],
    pub hard: u32,
}

// The next state of the generator, a linear congruential one.
pub fn next(state: u32) -> u32 {
    state.wrapping_mul(1664525).wrapping_add(1013904223)
}

// The reliability of bit b in row k, where x was drawn for it. Rows 0 to 4 are all equal: zero, 10, -10, and the extremes 127 and -127; in row 5 one bit
// goes against the others. Then extremes in turn and drawn, and from row 11 on by turns reliabilities next to 0, seven of eight at 0, and all of them.
fn reliability(k: u32, b: usize, x: u32) -> i16 {
    match k {
        0 => 0,
        1 => 10,
        2 => -10,
        3 => 127,
        4 => -127,
        5 => if b == 0 { -10 } else { 10 },
        6 => extreme(b % 2 == 0),
        7 => extreme(b % 2 != 0),
        8..=10 => extreme(x % 2 == 0),
        _ => drawn_reliability(k % 4, x),
    }
}

fn extreme(is_negative: bool) -> i16 {
    if is_negative { -127 } else { 127 }
}

// Reliabilities next to 0 and sparse ones tie often.
fn drawn_reliability(kind: u32, x: u32) -> i16 {
    match kind {
        0 => (x % 3) as i16 - 1,
        1 => (x % 5) as i16 - 2,
        2 => if x % 8 == 0 {
            (x / 8 % 255) as i16 - 127
        } else {
            0
        },
        _ => (x % 255) as i16 - 127,
    }
}

impl Row {
    // Row k, drawn from a state: bit by bit the upper half of the next state, which looks random.
    pub fn drawn(k: u32, state: u32) -> Row {
        let mut row = [0i16; 21];
        let mut hard = 0u32;
        let mut s = state;
        for (b, place) in row.iter_mut().enumerate() {
            s = next(s);
            let r = reliability(k, b, s / 65536);
            *place = r;
            hard = hard / 2 + if r < 0 { 1048576 } else { 0 };
        }
        Row { row, hard }
    }
}
