// Sheets: a row value of 127 taken and -128 refused, 200 questions taken and 201 refused, and an empty sheet file. Sheets are read
// by a reader over them; a reader that nobody handed out gets no other answer; and document 01's sheet is read and written.
use crate::paper;
use lent_reader::Reader;
use refusal::Refusal;
use sheet_reader::Question;
use sheet_writer::Questions;
use test_tally::parts;
use test_tally::tally::Tally;
use test_tally::words::Word;

// Where the last reliability of the sheet's first question stands, where that is of code 1.
const LAST: usize = 30;

pub fn agree() -> Tally {
    paper::agree(refused_anywhere(one_too_many(two_hundred(writes_no_low(rows())))))
}

// Writes n questions of code 1, each with the number 7 and the zero word.
fn write(n: usize, rows: &[i16], sheet: &mut [u8]) -> Result<(), Refusal> {
    let questions = Questions {
        codes: parts::of(&[1; 201], n),
        numbers: parts::of(&[7; 201], n),
        rows,
        words: parts::of(&[0; 1407], n.saturating_mul(7)),
    };
    sheet_writer::write_sheet(questions, sheet)
}

// A sheet of one question, all 127, is written, judged and read back, and none is left behind it, nor at places that nobody handed out;
// with another last reliability it is judged again.
fn rows() -> Tally {
    let mut sheet = [9u8; 44];
    let answer = write(1, &[127; 21], &mut sheet);
    let mut t = last_changed(Tally::default().with(answer == Ok(())), sheet);
    t = yields(t, &sheet, 0, 7, 127, b"0000000");
    t = t.with(keeps(Tally::default(), &sheet, 1, Ok(None)).is_whole());
    t = keeps(t, &sheet, 3, Ok(None));
    keeps(t, &sheet, usize::MAX, Ok(None))
}

fn last_changed(t: Tally, sheet: [u8; 44]) -> Tally {
    t.with(sheet::judge_sheet(&sheet) == Ok(1))
        .with(judged_with(sheet, 127) == Ok(1))
        .with(judged_with(sheet, 129) == Ok(1))
        .with(judged_with(sheet, 128) == Err(Refusal::Reliability))
}

// What a sheet is judged to be when its first question ends its row in a byte.
fn judged_with(sheet: [u8; 44], byte: u8) -> Result<u32, Refusal> {
    let mut changed = sheet;
    changed[LAST] = byte;
    sheet::judge_sheet(&changed)
}

// At a place the reader yields a question of code 1 with a number, moves on, and leaves a row of equal reliabilities and a word.
pub fn yields(t: Tally, sheet: &[u8], at: usize, number: u32, r: i16, word: &[u8]) -> Tally {
    let question = Question { code: 1, number };
    reads(
        t,
        sheet,
        at,
        Ok(Some(question)),
        at.wrapping_add(1),
        r,
        word,
    )
}

// At a place the reader yields nothing, and the place and both outputs are kept.
pub fn keeps(
    t: Tally,
    sheet: &[u8],
    at: usize,
    answer: Result<Option<Question>, Refusal>,
) -> Tally {
    reads(t, sheet, at, answer, at, 9, b"9999999")
}

fn reads(
    t: Tally,
    sheet: &[u8],
    at: usize,
    answer: Result<Option<Question>, Refusal>,
    next: usize,
    r: i16,
    word: &[u8],
) -> Tally {
    let mut row = [9i16; 21];
    let mut left = Word::nines(7);
    let mut reader = Reader::at(sheet, at);
    let found = reader.next(&mut row, left.symbols_mut());
    t.with(found == answer)
        .with(reader.at == next)
        .row(row, r)
        .with(left == Word::new(word))
}

// A row with -128 is not written, and the output keeps its nines.
fn writes_no_low(t: Tally) -> Tally {
    let mut row = [127i16; 21];
    row[20] = -128;
    let mut sheet = [9u8; 44];
    let answer = write(1, &row, &mut sheet);
    t.with(answer == Err(Refusal::Reliability))
        .with(sheet == [9; 44])
}

// 200 questions are written and taken; with one more behind them, and an end that counts 201, they are refused.
fn two_hundred(t: Tally) -> Tally {
    let mut sheet = [9u8; 8044];
    let answer = write(200, &[127; 4200], parts::of_mut(&mut sheet, 8004));
    let judged = sheet::judge_sheet(parts::of(&sheet, 8004));
    let more = write(1, &[127; 21], parts::past_mut(&mut sheet, 8000));
    sheet[8040] = 201;
    t.with(answer == Ok(()))
        .with(judged == Ok(200))
        .with(more == Ok(()))
        .with(sheet::judge_sheet(&sheet) == Err(Refusal::Count))
}

// 201 questions are not written, and the output keeps its nines.
fn one_too_many(t: Tally) -> Tally {
    let mut sheet = [9u8; 8044];
    let answer = write(201, &[127; 4221], &mut sheet);
    t.with(answer == Err(Refusal::Count))
        .with(sheet == [9; 8044])
}

// An empty sheet, and readers at places that nobody handed out: a sheet of one head of code 9 is refused, whatever the place, and so are
// bytes behind the end.
fn refused_anywhere(tally: Tally) -> Tally {
    let head = [0u8, 0, 0, 0x19];
    let longer = [0u8, 0, 0, 0xf0, 0, 0, 0, 0x11];
    let mut t = tally
        .with(sheet::judge_sheet(&[]) == Err(Refusal::RunsOut))
        .with(sheet::judge_sheet(&head) == Err(Refusal::Code));
    t = keeps(t, &[], 0, Err(Refusal::RunsOut));
    t = keeps(t, &head, 0, Err(Refusal::Code));
    t = keeps(t, &head, 1, Err(Refusal::Code));
    keeps(t, &longer, 1, Err(Refusal::AfterEnd))
}
