// The questions of a sheet into lent outputs. `question_of` is offered to callers: it takes any input and promises what specs/Calls.antt
// says. `question_at` is for the crates above, which read an accepted sheet from its first question on.
#![tactic(auto)]

ghost use Rattle.std.specs.Prelude.{◌≡◌, ℕ, ◌+◌, ◌/◌, ◌<◌, ◌≤◌, length, get_or, drop};
ghost use Rattle.sheet.specs.Sheet.{reliabilities, as_words};
ghost use Rattle.sheet_reader.specs.Answer.{numbered};
ghost use Rattle.sheet_reader.specs.Calls.{ChoiceSays};
ghost use Rattle.sheet_reader.specs.Within.{Stands, answered, PartsSays, PlaceSays, skipped};

mod items;

use code::Shape;
use refusal::{Refusal, ensure};
use sheet::{Form, words};

/// A question that a reader yields. Its row and its word stand in the outputs.
#[derive(Clone, Copy, Debug, PartialEq, Eq)]
pub struct Question {
    pub code: u32,
    pub number: u32,
}

// The answer at a place of an accepted sheet, for outputs of these lengths.
fn answer_at(sheet: &[u8], at: usize, row: usize, word: usize) -> Result<Option<Question>, Refusal>
    ensures { numbered result ≡ answered (get_or (as_words sheet.now) at 0) row word }
{
    let w = words::word_at(sheet, at);
    if words::kind_of(w) != words::HEAD {
        return Ok(None);
    }
    let code = words::head_code_of(w);
    let shape = Shape::numbered(code);
    ensure(row == shape.bits && word == shape.n, Refusal::Output)?;
    let number = words::low_of(w);
    Ok(Some(Question { code, number }))
}

// Fills both outputs with what stands from a word on.
fn read_parts(sheet: &[u8], at: usize, f: Form, row: &mut [i16], word: &mut [u8])
    requires inside { at ≤ length sheet.now / 4 }
    requires row_short { length row.old ≤ 60 }
    requires word_short { length word.old ≤ 15 }
    ensures { PartsSays f (drop at (as_words sheet.now)) (length row.old) (length word.old) row.new word.new }
{
    let behind = at + words::count_of(f, row.len());
    items::read_row(sheet, at, f, row);
    items::read_symbols(sheet, behind, word);
}

// The question whose head stands at a place, which is moved behind it; none left and a refusal keep the place and the outputs.
fn question_in(
    sheet: &[u8],
    at: &mut usize,
    f: Form,
    row: &mut [i16],
    word: &mut [u8],
) -> Result<Option<Question>, Refusal>
    ensures { PlaceSays f sheet.now at.old at.new result row.old row.new word.old word.new }
{
    let answer = answer_at(sheet, *at, row.len(), word.len())?;
    if let Some(question) = answer {
        read_parts(sheet, *at + 1, f, row, word);
        *at += 1 + words::question_words_of(f, question.code);
    }
    Ok(answer)
}

/// The question that begins at a place of an accepted sheet, which is moved behind it; none left and a refusal keep the place and the outputs.
pub fn question_at(
    sheet: &[u8],
    at: &mut usize,
    row: &mut [i16],
    word: &mut [u8],
) -> Result<Option<Question>, Refusal>
    requires { (i : ℕ) × Stands sheet.now i at.old }
    ensures { PlaceSays reliabilities sheet.now at.old at.new result row.old row.new word.old word.new }
{
    question_in(sheet, at, words::RELIABILITIES, row, word)
}

// The place after so many questions, or of the end.
fn place_of(sheet: &[u8], f: Form, index: usize) -> usize
    ensures { result ≡ skipped f index (as_words sheet.now) 0 }
{
    let mut at = 0;
    for _ in 0..index {
        let w = words::word_at(sheet, at);
        if words::kind_of(w) != words::HEAD {
            return at;
        }
        at += 1 + words::question_words_of(f, words::head_code_of(w));
    }
    at
}

/// The question that has so many others before it. The whole sheet is checked at each call, so that there is no place to be believed.
pub fn question_of(
    sheet: &[u8],
    index: usize,
    row: &mut [i16],
    word: &mut [u8],
) -> Result<Option<Question>, Refusal>
    ensures { ChoiceSays sheet.now index result row.old row.new word.old word.new }
{
    sheet::judge_sheet(sheet)?;
    let mut at = place_of(sheet, words::RELIABILITIES, index);
    question_at(sheet, &mut at, row, word)
}
