// Compares the decoder and the marker with a maximum over every codeword and with the first that has it, for each code of seven symbols: one line a
// code, how many of its results agree. How the decoder searches plays no part here: the codewords are found among all words by their roots, with a field
// of the program's own, and tried one by one. Those with two and with four roots are codes 1 and 2.
#![tactic(auto)]

mod codewords;
mod compare;
mod drawn_rows;
mod words;

use codewords::Codewords;
use compare::Counts;
use std::io;

// The roots of each code, with its first row and how many rows.
const CODES: [(u32, u32, u32); 6] = [
    (1, 9, 4),
    (2, 0, 28),
    (3, 0, 40),
    (4, 0, 200),
    (5, 0, 200),
    (6, 0, 200),
];

fn main(rt: HostRuntime) -> io::Result<()> {
    for (roots, from, rows) in CODES {
        let code = Codewords::with_roots(rt.alloc(), roots)?;
        let counts = all_rows(&code, from, rows);
        println!(rt;
            "m = 3, r = {roots}: {} codewords, {rows} rows, {counts}",
            code.words.len()
        )?;
    }
    Ok(())
}

fn all_rows(code: &Codewords, from: u32, rows: u32) -> Counts {
    let mut counts = Counts::default();
    let mut state = code.roots;
    for k in 0..rows {
        state = drawn_rows::next(state);
        counts.add_row(code, from.wrapping_add(k), state);
    }
    counts
}
