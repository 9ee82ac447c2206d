// Writing a question list as a sheet. `write_sheet` is offered to callers: it takes any input and promises what
// specs/Calls.antt says. A refusal is found before anything is written. The module `pack` is for the crates above; its functions have a `requires`.
#![tactic(auto)]

ghost use Rattle.std.specs.Prelude.{◌≡◌, length};
ghost use Rattle.refusal.specs.Refusal.{number_of};
ghost use Rattle.sheet.specs.Sheet.{written_in};
ghost use Rattle.sheet_writer.specs.Calls.{listed, WriteSays};
ghost use Rattle.sheet_writer.specs.Within.{ListWithin};

mod list;
pub mod pack;

use code::Shape;
use refusal::Refusal;
use sheet::{Form, words};

/// A question list: its codes, its question numbers, all rows end to end and all words end to end.
#[derive(Clone, Copy)]
pub struct Questions<'a> {
    pub codes: &'a [u32],
    pub numbers: &'a [u32],
    pub rows: &'a [i16],
    pub words: &'a [u8],
}

// Stores the sheet of an accepted list.
fn write_list(f: Form, questions: Questions, output: &mut [u8])
    requires { ListWithin f questions.codes.now questions.numbers.now questions.rows.now questions.words.now (length output.old) }
    ensures { output.new ≡ written_in f (listed questions.entry.codes.now questions.entry.numbers.now questions.entry.rows.now questions.entry.words.now) }
{
    let mut rows = questions.rows;
    let mut symbols = questions.words;
    let mut at = 0;
    for (i, code) in questions.codes.iter().enumerate() {
        let shape = Shape::numbered(*code);
        let (row, later_rows) = rows.split_at(shape.bits);
        let (word, later_symbols) = symbols.split_at(shape.n);
        let number = questions.numbers[i];
        pack::write_question(f, *code, number, row, word, &mut output[at..]);
        at += 4 * (1 + words::question_words_of(f, *code));
        rows = later_rows;
        symbols = later_symbols;
    }
    pack::put_end(output, at, questions.codes.len() as u32);
}

/// Writes the sheet of a question list. The output has exactly the sheet's length; a refusal changes nothing.
pub fn write_sheet(questions: Questions, output: &mut [u8]) -> Result<(), Refusal>
    ensures { WriteSays questions.entry.codes.now questions.entry.numbers.now questions.entry.rows.now questions.entry.words.now (number_of result) output.old output.new }
{
    let f = words::RELIABILITIES;
    list::check_write(f, questions, output.len())?;
    write_list(f, questions, output);
    Ok(())
}
