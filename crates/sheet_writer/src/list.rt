// What a question list is refused by.
ghost use Rattle.std.specs.Prelude.{◌≡◌, ◌≤◌, length};
ghost use Rattle.refusal.specs.Refusal.{number_of};
ghost use Rattle.sheet.specs.Within.{RowForm};
ghost use Rattle.sheet_writer.specs.Calls.{fits, parts_refusal, asked_refusal, list_refusal, write_refusal};
ghost use Rattle.sheet_writer.specs.Within.{words_needed};

use crate::Questions;
use code::{Choice, Shape};
use refusal::{Refusal, ensure};
use sheet::{Form, words};

fn is_enough(after: usize, left: usize, needed: usize) -> bool
    ensures { result ≡ fits after left needed }
{
    if after == 0 {
        left == needed
    } else {
        needed <= left
    }
}

// The row and the word of the first question of what is left, with so many questions after it.
#[tactic(auto, using(refusal::proofs::Results::stops, refusal::proofs::Results::goes_on), unfolding(crate::specs::Calls::parts_refusal, refusal::specs::Refusal::unless))]
fn check_parts(
    f: Form,
    shape: Shape,
    after: usize,
    rows: &[i16],
    symbols: &[u8],
) -> Result<(), Refusal>
    requires { RowForm f }
    ensures { number_of result ≡ parts_refusal f shape.m after rows.now symbols.now }
{
    ensure(is_enough(after, rows.len(), shape.bits), Refusal::RowLength)?;
    ensure(
        is_enough(after, symbols.len(), shape.n),
        Refusal::WordLength,
    )?;
    let bound = (f.base / 2 - 1) as u16;
    ensure(
        metric::is_row(bound, &rows[..shape.bits]),
        Refusal::Reliability,
    )?;
    ensure(
        code::symbols_good(shape.m, &symbols[..shape.n]),
        Refusal::Symbol,
    )
}

fn check_question(
    f: Form,
    code: u32,
    number: u32,
    after: usize,
    rows: &[i16],
    symbols: &[u8],
) -> Result<(), Refusal>
    requires { RowForm f }
    ensures { number_of result ≡ asked_refusal f code number after rows.now symbols.now }
{
    let shape = Choice::Number(code).shape()?;
    ensure(number < words::NUMBERS, Refusal::UnusedBits)?;
    check_parts(f, shape, after, rows, symbols)
}

// Question by question.
fn check_list(f: Form, questions: Questions) -> Result<(), Refusal>
    requires row_form { RowForm f }
    requires paired { length questions.codes.now ≡ length questions.numbers.now }
    ensures { number_of result ≡ list_refusal f questions.entry.codes.now questions.entry.numbers.now questions.entry.rows.now questions.entry.words.now }
{
    let mut rows = questions.rows;
    let mut symbols = questions.words;
    for (i, code) in questions.codes.iter().enumerate() {
        let after = questions.codes.len() - (i + 1);
        check_question(f, *code, questions.numbers[i], after, rows, symbols)?;
        let shape = Shape::numbered(*code);
        rows = rows.split_at(shape.bits).1;
        symbols = symbols.split_at(shape.n).1;
    }
    ensure(rows.len() == 0, Refusal::RowLength)?;
    ensure(symbols.len() == 0, Refusal::WordLength)
}

// How many words the questions of these codes take.
fn needed(f: Form, codes: &[u32]) -> usize
    requires { length codes.now ≤ 200 }
    ensures { result ≡ words_needed f codes.now }
{
    let mut total = 0;
    for code in codes {
        total += 1 + words::question_words_of(f, *code);
    }
    total
}

// What writing a list into an output of a length is refused by.
pub fn check_write(f: Form, questions: Questions, output: usize) -> Result<(), Refusal>
    requires { RowForm f }
    ensures { number_of result ≡ write_refusal f questions.entry.codes.now questions.entry.numbers.now questions.entry.rows.now questions.entry.words.now output }
{
    let count = questions.codes.len();
    ensure(count <= words::MOST, Refusal::Count)?;
    ensure(count == questions.numbers.len(), Refusal::Count)?;
    check_list(f, questions)?;
    let long = 4 * (needed(f, questions.codes) + 1);
    ensure(output == long, Refusal::Output)
}
