// The marker: the sheet's three questions, the verdicts of other words on record, and the refusals in their order.
use code::Choice;
use metric::Verdict;
use refusal::Refusal;
use test_tally::tally::Tally;
use test_tally::words::Word;
use test_tally::{parts, words};

pub fn agree() -> Tally {
    // The three questions of the sheet on record: all 10, and the words of 0x30000000, 0x30000163 and 0x30000001.
    let t = Tally::default()
        .with(gives(10, 10, b"0000000", Verdict::Best))
        .with(gives(10, 10, b"3610000", Verdict::Short(100)))
        .with(gives(10, 10, b"1000000", Verdict::NoCodeword))
        // All -10; all 10 but bit 0 at -10; all zero, where every codeword is best.
        .with(gives(-10, -10, b"7777777", Verdict::Best))
        .with(gives(-10, -10, b"0000000", Verdict::Short(420)))
        .with(gives(10, -10, b"0000000", Verdict::Best))
        .with(gives(10, -10, b"1000000", Verdict::NoCodeword))
        .with(gives(0, 0, b"7777777", Verdict::Best))
        .with(gives(0, 0, b"1154622", Verdict::Best))
        .with(gives(0, 0, b"1000000", Verdict::NoCodeword));
    refusals(t)
}

// Codes, rows, words, the scratch and values.
fn refusals(t: Tally) -> Tally {
    let low = [-128i16; 21];
    let short = &low[..20];
    t.with(refuses(6, short, b"800000", 16385, Refusal::Code))
        .with(refuses(0, short, b"800000", 16385, Refusal::Code))
        .with(refuses(1, short, b"800000", 16385, Refusal::RowLength))
        .with(refuses(3, &low, b"800000", 16385, Refusal::RowLength))
        .with(refuses(4, &low, b"800000", 16385, Refusal::RowLength))
        .with(refuses(1, &low, b"800000", 16385, Refusal::WordLength))
        .with(refuses(1, &low, b"8000000", 16385, Refusal::Scratch))
        .with(refuses(1, &low, b"8000000", 16384, Refusal::Reliability))
        .with(refuses(1, &[10; 21], b"8000000", 16384, Refusal::Symbol))
}

// In code 1, a row of equal reliabilities but for the first, with a word: the verdict.
fn gives(all: i16, first: i16, word: &[u8], verdict: Verdict) -> bool {
    judged(1, &words::row(all, first, all), word, 16384) == Ok(verdict)
}

// A row and a word with so much scratch are refused.
fn refuses(code: u32, row: &[i16], word: &[u8], scratch: usize, refusal: Refusal) -> bool {
    judged(code, row, word, scratch) == Err(refusal)
}

fn judged(code: u32, row: &[i16], word: &[u8], scratch: usize) -> Result<Verdict, Refusal> {
    let mut lent = [0i32; 16400];
    marker::judge_word(
        Choice::Number(code),
        row,
        Word::new(word).symbols(),
        parts::of_mut(&mut lent, scratch),
    )
}
