// Reliabilities and metrics: the definitions that the decoder, the marker and the sheets share, with their laws, the tests of a reliability and
// of a row, the metric of a word, and what the marker finds of a word. The search for a best word is left to the crates above. Its functions
// are for them, and promise `reliability_good` and `row_good` of specs/Row.antt and `metric` of specs/Metric.antt.
#![tactic(auto)]

ghost use Rattle.std.specs.Prelude.{◌≡◌, true, cond, List, ◌++◌, ℕ, ◌≤◌, eqb, length, drop, nat_abs, ◌+ℤ◌, ◌-ℤ◌};
ghost use Rattle.code.specs.Bits.{bits_of};
ghost use Rattle.metric.specs.Row.{row_bound, reliability_good, row_good};
ghost use Rattle.metric.specs.Metric.{metric_of, metric};
ghost use Rattle.metric.specs.Verdict.{verdict_number, shortfall_of};
ghost use Rattle.metric.specs.Within.{SymbolMore, WordWith};

// The greatest size in a row that is decoded or marked.
pub const BOUND: u16 = 127;

/// What the marker finds of a word: that it is no codeword, how much its metric lacks, or that no codeword has a greater one.
#[derive(Clone, Copy, Debug, PartialEq, Eq)]
pub enum Verdict {
    NoCodeword,
    Short(i32),
    Best,
}

impl Verdict {
    /// Its number in document 01.
    pub fn number(self) -> u32
        ensures { result ≡ verdict_number self }
    {
        match self {
            Verdict::NoCodeword => 0,
            Verdict::Short(_) => 1,
            Verdict::Best => 2,
        }
    }

    /// What is lacking: 0 where the word is best or no codeword.
    pub fn shortfall(self) -> i32
        ensures { result ≡ shortfall_of self }
    {
        match self {
            Verdict::Short(shortfall) => shortfall,
            _ => 0,
        }
    }
}

// Whether a number is a reliability of at most a size.
#[tactic(auto, unfolding(crate::specs::Row::reliability_good))]
fn is_reliability(bound: u16, r: i16) -> bool
    ensures { result ≡ reliability_good bound r }
{
    r.unsigned_abs() <= bound
}

/// Whether every entry of a row is a reliability of at most a size.
// `all` stops at one that is not, and so cannot test several at a time: with it a row and a word of code 3 took twice the instructions.
pub fn is_row(bound: u16, row: &[i16]) -> bool
    ensures { result ≡ row_good bound row.now }
{
    let mut good = true;
    for r in row {
        good &= is_reliability(bound, *r);
    }
    good
}

// The metric with one bit more: a 0 counts its reliability, a 1 counts it against.
fn counted(sum: i32, bit: u8, r: i16) -> i32
    requires small { nat_abs sum ≤ 10000 }
    requires reliability { reliability_good row_bound r ≡ true }
    ensures { result ≡ cond (eqb bit 0) (sum +ℤ r) (sum -ℤ r) }
{
    if bit == 0 {
        sum + i32::from(r)
    } else {
        sum - i32::from(r)
    }
}

// The metric with one symbol more, whose bits' reliabilities come first in the row.
fn with_symbol(m: u32, row: &[i16], c: u8, sum: i32) -> i32
    requires { SymbolMore m row.now sum }
    ensures { (bs : List ℕ) → sum ≡ metric_of (drop m row.now) bs → result ≡ metric_of row.now (bits_of m c ++ bs) }
{
    let mut s = sum;
    for j in (0..m).rev() {
        s = counted(s, (c >> j) % 2, row[j as usize]);
    }
    s
}

// The metric of a word, symbol by symbol from the last.
fn summed(m: u32, row: &[i16], word: &[u8]) -> i32
    requires { WordWith m row.now (length word.now) }
    ensures { result ≡ metric m row.now word.now }
{
    let mut sum = 0;
    for i in (0..word.len()).rev() {
        sum = with_symbol(m, &row[i * m as usize..], word[i], sum);
    }
    sum
}

/// The metric of a word whose bits are as many as the entries of an accepted row.
// Each m is named, so that the compiler knows how often a loop over the bits of a symbol goes round.
pub fn word_metric(m: u32, row: &[i16], word: &[u8]) -> i32
    requires { WordWith m row.now (length word.now) }
    ensures { result ≡ metric m row.now word.now }
{
    if m == 3 {
        summed(3, row, word)
    } else {
        summed(4, row, word)
    }
}
