// The listing of a sheet, written into a lent output. `list` is offered to callers: it takes any bytes and promises by
// specs/Calls.antt that the text is the one that specs/Listing.antt says.
#![tactic(auto)]

ghost use Rattle.std.specs.Prelude.{◌≡◌, true, ℕ, ◌+◌, ◌*◌, ◌≤◌, length};
ghost use Rattle.refusal.specs.Refusal.{number_of, value_or};
ghost use Rattle.sheet.specs.Sheet.{question, questions, question_good, reliabilities};
ghost use Rattle.metric.specs.Scratch.{scratch_long};
ghost use Rattle.report.specs.Calls.{line_most, ListSays};
ghost use Rattle.report.specs.Within.{Begins, Passed, SheetTaken, PutLine, PutLines};

use code::Shape;
use refusal::{Refusal, ensure};
use sheet::words;
use sheet_reader::Question;
use text::Writer;

/// How long the output of `list` is: room for the longest text.
pub const LONG: usize = 19058;

// Decodes the row of a question, marks its word and writes its line.
fn put_answer(
    asked: Question,
    row: &[i16],
    word: &[u8],
    scratch: &mut [i32],
    writer: &mut Writer<'_>,
)
    requires good { question_good reliabilities (question asked.code asked.number row.now word.now) ≡ true }
    requires scratch_len { length scratch.old ≡ scratch_long }
    requires line_most_in_bounds { writer.old.at + line_most ≤ length writer.old.out.now }
    ensures { PutLine (question asked.code asked.number row.now word.now) writer.old writer.new }
{
    let Question { code, number } = asked;
    let shape = Shape::numbered(code);
    let mut best_room = [0u8; 15];
    let best = &mut best_room[..shape.n];
    let mut soft_room = [0i16; 60];
    let soft = &mut soft_room[..shape.bits];
    let metric = decoding::decode_accepted(shape, row, best, soft, scratch);
    let verdict = marker::verdict_on_word(shape, row, word, metric);
    let shortfall = verdict.shortfall();
    writer.put_question(number, code, metric, verdict.number(), shortfall, soft);
}

// Reads the question that begins at a place of the sheet, writes its line, and moves the place behind it.
fn put_next(sheet: &[u8], at: &mut usize, scratch: &mut [i32], writer: &mut Writer<'_>)
    requires begins { (i : ℕ) × Begins sheet.now i at.old }
    requires scratch_len { length scratch.old ≡ scratch_long }
    requires line_most_in_bounds { writer.old.at + line_most ≤ length writer.old.out.now }
    ensures { Passed sheet.now at.old at.new writer.old writer.new }
{
    let shape = Shape::numbered(words::head_code_of(words::word_at(sheet, *at)));
    let mut row_room = [0i16; 60];
    let row = &mut row_room[..shape.bits];
    let mut word_room = [0u8; 15];
    let word = &mut word_room[..shape.n];
    // A question begins here, so the reader finds it.
    if let Ok(Some(asked)) = sheet_reader::question_at(sheet, at, row, word) {
        put_answer(asked, row, word, scratch, writer);
    }
}

// The lines of all questions.
fn put_lines(sheet: &[u8], count: u32, scratch: &mut [i32], writer: &mut Writer<'_>)
    requires sheet_taken { SheetTaken sheet.now count }
    requires scratch_len { length scratch.old ≡ scratch_long }
    requires line_most_in_bounds { writer.old.at + count * line_most ≤ length writer.old.out.now }
    ensures { PutLines (questions sheet.now) writer.old writer.new }
{
    let mut at = 0;
    for _ in 0..count {
        put_next(sheet, &mut at, scratch, writer);
    }
}

/// Writes the listing of a sheet at the start of an output that is LONG bytes long, and answers how long it is. The decoder's scratch is its own, so that
/// it needs more room than any other call.
pub fn list(sheet: &[u8], out: &mut [u8]) -> Result<usize, Refusal>
    ensures { ListSays sheet.now (number_of result) (value_or 0 result) out.old out.new }
{
    ensure(out.len() == LONG, Refusal::Output)?;
    let mut writer = Writer::new(out);
    match sheet::judge_sheet(sheet) {
        Err(refusal) => writer.put_refused(refusal.number()),
        Ok(count) => {
            let mut scratch = [0i32; 16384];
            writer.put_header();
            put_lines(sheet, count, &mut scratch, &mut writer);
            writer.put_count(count);
        }
    }
    Ok(writer.at)
}
