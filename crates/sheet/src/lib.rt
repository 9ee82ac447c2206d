// Sheets of questions: the format, and judging a sheet. `judge_sheet` is offered to callers: it takes any bytes and promises
// what specs/Calls.antt says. The modules are for the crates above, which read and write sheets; some of their functions
// have a `requires`.
#![tactic(auto)]

ghost use Rattle.std.specs.Prelude.{◌≡◌};
ghost use Rattle.sheet.specs.Calls.{judged, judged_of};

mod form;
mod judging;
pub mod words;

pub use form::Form;
use refusal::{Refusal, ensure};

/// How many questions a sheet has, or what it is refused by: the byte count first, then the first offending word.
pub fn judge_sheet(sheet: &[u8]) -> Result<u32, Refusal>
    ensures { judged_of result ≡ judged sheet.now }
{
    ensure(sheet.len() % 4 == 0, Refusal::RunsOut)?;
    judging::judged_words(sheet, words::RELIABILITIES)
}
