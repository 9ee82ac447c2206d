// One row: the decoding and the marks of some words, against the greatest metrics of the listed codewords and the first best one.
use crate::codewords::{Best, Codewords};
use crate::drawn_rows::Row;
use crate::{drawn_rows, words};
use code::Choice;
use metric::Verdict;
use refusal::Refusal;
use std::fmt;

// What is counted: the metrics, first best words, soft outputs and marks that agree, the words with each verdict, and the rows with several
// best words.
#[derive(Clone, Copy, Default)]
pub struct Counts {
    metrics: u64,
    words: u64,
    softs: u64,
    marks: u64,
    none: u64,
    short: u64,
    best: u64,
    ties: u64,
}

// What a scratch holds before a call.
const RUBBISH: i32 = 123456789;

impl Counts {
    // One row, decoded and marked.
    pub fn add_row(&mut self, code: &Codewords, k: u32, state: u32) {
        let r = Row::drawn(k, state);
        let best = code.best_of(&r.row);
        let decoded = Decoding::of(code.roots, &r.row);
        self.add_decoding(code, &r.row, best, decoded);
        let drawn = code.at((drawn_rows::next(state) / 65536 % 512) as usize);
        self.add_marks(code, r, best.metric, words::packed(decoded.word), drawn);
    }

    // The decoding of a row.
    fn add_decoding(&mut self, code: &Codewords, row: &[i16; 21], best: Best, decoded: Decoding) {
        count(&mut self.metrics, decoded.metric == Ok(best.metric));
        count(&mut self.words, decoded.word == words::symbols(best.first));
        count(&mut self.ties, best.count > 1);
        let mut bit = 1u32;
        for soft in decoded.softs {
            let expected = code.soft_output(row, bit);
            count(&mut self.softs, expected == Some(i32::from(soft)));
            bit = bit.wrapping_mul(2);
        }
    }

    // The marks of eight words: the decoded one, the constant ones, the hard decisions, a codeword that was drawn and one near the decoded
    // word, and two with one bit turned.
    fn add_marks(&mut self, code: &Codewords, r: Row, best: i32, decoded: u32, drawn: u32) {
        let near = decoded ^ code.at(1);
        let (turned, other) = (drawn ^ 16, decoded ^ 1048576);
        for word in [decoded, 0, 2097151, r.hard, drawn, near, turned, other] {
            self.add_mark(code.roots, &r.row, best, word);
        }
    }

    // The mark of a word.
    fn add_mark(&mut self, roots: u32, row: &[i16; 21], best: i32, word: u32) {
        let mut scratch = [RUBBISH; 16384];
        let found = marker::judge_word(choice(roots), row, &words::symbols(word), &mut scratch);
        let verdict = expected(roots, row, best, word);
        count(&mut self.marks, found == Ok(verdict));
        match verdict {
            Verdict::NoCodeword => count(&mut self.none, true),
            Verdict::Short(_) => count(&mut self.short, true),
            Verdict::Best => count(&mut self.best, true),
        }
    }
}

impl fmt::Display for Counts {
    fn fmt<W: fmt::Write>(&self, f: &mut fmt::Formatter<W>) -> fmt::Result {
        write!(
            f,
            "{} with another tied word; agree: {} metrics, ",
            self.ties, self.metrics
        )?;
        write!(
            f,
            "{} first best words, {} soft outputs, ",
            self.words, self.softs
        )?;
        write!(
            f,
            "{} marks of {} best, {} short, {} none",
            self.marks, self.best, self.short, self.none
        )
    }
}

// One more of a count, if something holds. (No program counts so far that it wraps.)
fn count(n: &mut u64, holds: bool) {
    *n = n.wrapping_add(u64::from(holds));
}

// How the code with so many roots is chosen: codes 1 and 2 by number, the others by m and r.
fn choice(roots: u32) -> Choice {
    match roots {
        2 => Choice::Number(1),
        4 => Choice::Number(2),
        r => Choice::Parameters { m: 3, r },
    }
}

// What the decoder answers to a row, and leaves.
#[derive(Clone, Copy)]
struct Decoding {
    metric: Result<i32, Refusal>,
    word: [u8; 7],
    softs: [i16; 21],
}

impl Decoding {
    fn of(roots: u32, row: &[i16; 21]) -> Decoding {
        let mut word = [0u8; 7];
        let mut softs = [0i16; 21];
        let mut scratch = [RUBBISH; 16384];
        let metric = decoder::decode(choice(roots), row, &mut word, &mut softs, &mut scratch);
        Decoding {
            metric,
            word,
            softs,
        }
    }
}

// The verdict on a word by its own metric and the greatest.
fn expected(roots: u32, row: &[i16; 21], best: i32, word: u32) -> Verdict {
    if !words::is_codeword(roots, word) {
        return Verdict::NoCodeword;
    }
    match best.wrapping_sub(words::metric(row, word)) {
        0 => Verdict::Best,
        lacking => Verdict::Short(lacking),
    }
}
