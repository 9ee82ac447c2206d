// A reader that stands over a lent sheet: a struct with the slice and a position, which is the number of questions that it has passed, 0 before the
// first one. `next` yields one question into lent outputs and passes it. It takes any position, one that nobody gave out among them, and promises
// what specs/Calls.antt says: each yield checks the whole sheet.
#![tactic(auto)]

ghost use Rattle.std.specs.Prelude.{◌≡◌};
ghost use Rattle.lent_reader.specs.Calls.{YieldSays};

use refusal::Refusal;
use sheet_reader::Question;

#[derive(Clone, Copy)]
pub struct Reader<'a> {
    pub sheet: &'a [u8],
    pub at: usize,
}

impl<'a> Reader<'a> {
    /// A reader before the first question of a sheet.
    pub fn new(sheet: &'a [u8]) -> Self
        ensures sheet { result.sheet.now ≡ sheet.entry.now }
        ensures at { result.at ≡ 0 }
    {
        Reader { sheet, at: 0 }
    }

    /// A reader that has passed so many questions of a sheet.
    pub fn at(sheet: &'a [u8], at: usize) -> Self
        ensures sheet { result.sheet.now ≡ sheet.entry.now }
        ensures at { result.at ≡ at }
    {
        Reader { sheet, at }
    }

    /// The question that the reader stands before, which is passed then. None left and a refusal keep the place and the outputs.
    pub fn next(&mut self, row: &mut [i16], word: &mut [u8]) -> Result<Option<Question>, Refusal>
        ensures yields { YieldSays self.old.sheet.now self.old.at self.new.at result row.old row.new word.old word.new }
        ensures sheet { self.new.sheet.now ≡ self.old.sheet.now }
    {
        let answer = sheet_reader::question_of(self.sheet, self.at, row, word)?;
        if let Some(_) = answer {
            self.at += 1;
        }
        Ok(answer)
    }
}
