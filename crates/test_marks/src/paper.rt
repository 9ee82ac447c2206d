// Document 01's sheet of 31 words: its questions are read one after another by a reader over it, and written again are the same bytes.
use crate::sheets;
use sheet_writer::Questions;
use test_tally::tally::Tally;

// The words of its questions, which are of code 1 and have 10 throughout their rows.
const WORDS: [u8; 21] = [
    0, 0, 0, 0, 0, 0, 0, 3, 6, 1, 0, 0, 0, 0, 1, 0, 0, 0, 0, 0, 0,
];

const PAPER: [u8; 124] = [
    1, 0, 0, 17, 10, 10, 10, 32, 10, 10, 10, 32, 10, 10, 10, 32, 10, 10, 10, 32, 10, 10, 10, 32,
    10, 10, 10, 32, 10, 10, 10, 32, 0, 0, 0, 48, 0, 0, 0, 48, 2, 0, 0, 17, 10, 10, 10, 32, 10, 10,
    10, 32, 10, 10, 10, 32, 10, 10, 10, 32, 10, 10, 10, 32, 10, 10, 10, 32, 10, 10, 10, 32, 99, 1,
    0, 48, 0, 0, 0, 48, 3, 0, 0, 17, 10, 10, 10, 32, 10, 10, 10, 32, 10, 10, 10, 32, 10, 10, 10,
    32, 10, 10, 10, 32, 10, 10, 10, 32, 10, 10, 10, 32, 1, 0, 0, 48, 0, 0, 0, 48, 3, 0, 0, 240,
];

// The sheet as it stands, and with the number 0 for the first question.
pub fn agree(t: Tally) -> Tally {
    let mut sheet = PAPER;
    let u = written(read(t, &sheet, 1), &sheet, 1);
    sheet[0] = 0;
    written(read(u, &sheet, 0), &sheet, 0)
}

// The questions are read one after another, each in one comparison, and none is left behind them nor further on.
fn read(t: Tally, sheet: &[u8], first: u32) -> Tally {
    let none = Tally::default();
    t.with(sheet::judge_sheet(sheet) == Ok(3))
        .with(sheets::yields(none, sheet, 0, first, 10, b"0000000").is_whole())
        .with(sheets::yields(none, sheet, 1, 2, 10, b"3610000").is_whole())
        .with(sheets::yields(none, sheet, 2, 3, 10, b"1000000").is_whole())
        .with(sheets::keeps(none, sheet, 3, Ok(None)).is_whole())
        .with(sheets::keeps(none, sheet, 200, Ok(None)).is_whole())
}

// Written, the questions are the same bytes.
fn written(t: Tally, sheet: &[u8; 124], first: u32) -> Tally {
    let mut again = [9u8; 124];
    let questions = Questions {
        codes: &[1; 3],
        numbers: &[first, 2, 3],
        rows: &[10; 63],
        words: &WORDS,
    };
    let answer = sheet_writer::write_sheet(questions, &mut again);
    t.with(answer == Ok(())).with(again == *sheet)
}
