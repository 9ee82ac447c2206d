// Practice sheets from a seed. `draw_sheet` is offered to callers: it takes any input and promises what specs/Calls.antt says. A refusal is found
// before anything is drawn. `Generator` is for the programs that test too: a row of any length by the same draws.
#![tactic(auto)]

ghost use Rattle.std.specs.Prelude.{◌≡◌, ◌+◌, ◌*◌, ◌^◌, ◌<◌, ◌≤◌, true, length};
ghost use Rattle.refusal.specs.Refusal.{number_of, value_or};
ghost use Rattle.code.specs.Code.{code_good, width};
ghost use Rattle.code.specs.Bits.{row_long};
ghost use Rattle.sheet.specs.Sheet.{reliabilities, question_long, question_words, written};
ghost use Rattle.sheet_writer.specs.Within.{begun};
ghost use Rattle.practice.specs.Practice.{advanced, reliability, row_drawn, after, question_drawn, drawn, state_after};
ghost use Rattle.practice.specs.Calls.{PracticeSays};
ghost use Rattle.practice.specs.Within.{SheetWithin, Refuses};

use code::{Choice, Shape};
use refusal::{Refusal, ensure};
use sheet::words;

// What a state advances by.
const STEP: u32 = 0x9E3779B9;

/// Draws reliabilities, one after another, from a state.
#[derive(Clone, Copy)]
pub struct Generator {
    pub state: u32,
}

impl Generator {
    /// The next reliability, which the new state gives.
    #[tactic(auto, unfolding(crate::specs::Practice::advanced))]
    pub fn draw(&mut self) -> i16
        ensures state { self.new.state ≡ advanced self.old.state }
        ensures drawn { result ≡ reliability (advanced self.old.state) }
    {
        self.state = self.state.wrapping_add(STEP);
        let draw = self.state ^ (self.state >> 16);
        (draw % 255) as i16 - 127
    }

    /// Fills a row.
    pub fn draw_row(&mut self, row: &mut [i16])
        ensures state { self.new.state ≡ after (length row.old) self.old.state }
        ensures drawn { row.new ≡ row_drawn (length row.old) self.old.state }
    {
        for place in row.iter_mut() {
            *place = self.draw();
        }
    }

    // Stores a question with a drawn row and a zero word at the start of an output.
    fn draw_question(&mut self, code: u32, number: u32, output: &mut [u8])
        requires known { code_good code ≡ true }
        requires small { number < 2 ^ 24 }
        requires room { 4 * (1 + question_long reliabilities (width code)) ≤ length output.old }
        ensures state { self.new.state ≡ after (row_long (width code)) self.old.state }
        ensures drawn { output.new ≡ begun (question_words reliabilities (question_drawn number code self.old.state)) output.old }
    {
        let shape = Shape::numbered(code);
        let bits = shape.bits;
        let mut row = [0i16; 60];
        let word = [0u8; 15];
        self.draw_row(&mut row[..bits]);
        sheet_writer::pack::write_question(
            words::RELIABILITIES,
            code,
            number,
            &row[..bits],
            &word[..shape.n],
            output,
        );
    }

    // Stores the sheet of so many questions.
    fn draw_questions(&mut self, code: u32, count: u32, output: &mut [u8])
        requires { SheetWithin code count self.old.state (length output.old) }
        ensures state { self.new.state ≡ state_after code count self.old.state }
        ensures drawn { output.new ≡ written (drawn code count self.old.state) }
    {
        let size = 4 * (1 + words::question_words_of(words::RELIABILITIES, code));
        let mut at = 0;
        for i in 0..count {
            self.draw_question(code, i + 1, &mut output[at..]);
            at += size;
        }
        sheet_writer::pack::put_end(output, at, count);
    }
}

// What drawing is refused by, the state whatever it is.
fn check_practice(code: u32, count: u32, output: usize) -> Result<(), Refusal>
    ensures { Refuses code count output (number_of result) }
{
    let count = count as usize;
    ensure(count <= words::MOST, Refusal::Count)?;
    Choice::Number(code).shape()?;
    let size = 1 + words::question_words_of(words::RELIABILITIES, code);
    ensure(output == 4 * (count * size + 1), Refusal::Output)
}

/// Writes the practice sheet of so many questions of a code, drawn from a state, and answers the state after the last draw. The output has exactly
/// the sheet's length; a refusal changes nothing.
pub fn draw_sheet(code: u32, count: u32, state: u32, output: &mut [u8]) -> Result<u32, Refusal>
    ensures { PracticeSays code count state (number_of result) (value_or state result) output.old output.new }
{
    check_practice(code, count, output.len())?;
    let mut generator = Generator { state };
    generator.draw_questions(code, count, output);
    Ok(generator.state)
}
