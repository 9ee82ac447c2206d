// The refusals of the calls: what input breaks, by document 01's numbers. A call tests its input in the order in which document 01 has the refusals,
// by `ensure` and `?`, and only then does its work.
#![tactic(auto)]

ghost use Rattle.std.specs.Prelude.{◌≡◌, if◌then◌else◌, Ok, Err};
ghost use Rattle.refusal.specs.Refusal.{number, number_of, ensured};

use std::error::Error;
use std::fmt;

/// What a call is refused by.
#[derive(Clone, Copy, Debug, PartialEq, Eq)]
pub enum Refusal {
    /// The code is not 1 to 5, or m is not 3 or 4.
    Code = 1,
    /// A row is not n·m long.
    RowLength = 2,
    /// A word is not n, a message not k, or BCH words end to end not n·m, long.
    WordLength = 3,
    /// An output has not exactly its length.
    Output = 4,
    /// A reliability is outside -127..=127.
    Reliability = 5,
    /// A symbol is not below 2^m.
    Symbol = 6,
    /// A sample is not a number.
    Sample = 7,
    /// A word to be read or split is no codeword.
    NoCodeword = 8,
    /// The bytes of a sheet are no multiple of four, or its words run out.
    RunsOut = 9,
    /// Wrong kind at a word of a sheet.
    Kind = 10,
    /// Unused bits of a sheet are not zero.
    UnusedBits = 11,
    /// A 201st question, or a count that differs.
    Count = 12,
    /// Words after the end of a sheet.
    AfterEnd = 13,
    /// A received symbol's kind is above 3.
    SymbolKind = 14,
    /// Received symbols and samples do not fill the row exactly.
    Fill = 15,
    /// With this m, a code of r roots may not be chosen.
    Roots = 16,
    /// A scratch is not 16,384 numbers long.
    Scratch = 17,
    /// A layer has a value other than 0 and 1, or is no BCH word.
    NoBchWord = 18,
    /// A configuration is not valid: no codeword has it.
    Configuration = 19,
}

impl Refusal {
    /// Its number in document 01.
    pub fn number(self) -> u32
        ensures { result ≡ number self }
    {
        self as u32
    }
}

/// Refused, unless something holds.
pub fn ensure(holds: bool, refusal: Refusal) -> Result<(), Refusal>
    ensures { result ≡ ensured holds refusal }
{
    if holds { Ok(()) } else { Err(refusal) }
}

/// The number of a refusal, or 0 where a call was not refused.
pub fn number_of<T: Drop>(answer: &Result<T, Refusal>) -> u32
    ensures { result ≡ number_of answer.now }
{
    match answer {
        Ok(_) => 0,
        Err(refusal) => refusal.number(),
    }
}

impl fmt::Display for Refusal {
    fn fmt<W: fmt::Write>(&self, f: &mut fmt::Formatter<W>) -> fmt::Result {
        f.write_str(match self {
            Refusal::Code => "no such code",
            Refusal::RowLength => "a row of another length",
            Refusal::WordLength => "a word, a message or BCH words of another length",
            Refusal::Output => "an output of another length",
            Refusal::Reliability => "a reliability outside -127..127",
            Refusal::Symbol => "a symbol that does not fit",
            Refusal::Sample => "a sample that is not a number",
            Refusal::NoCodeword => "no codeword",
            Refusal::RunsOut => "a sheet that runs out",
            Refusal::Kind => "a word of the wrong kind in a sheet",
            Refusal::UnusedBits => "unused bits that are not zero",
            Refusal::Count => "too many questions, or a count that differs",
            Refusal::AfterEnd => "words after the end of a sheet",
            Refusal::SymbolKind => "a received symbol of no kind",
            Refusal::Fill => "received symbols that do not fill the row exactly",
            Refusal::Roots => "no code with so many roots",
            Refusal::Scratch => "a scratch of the wrong length",
            Refusal::NoBchWord => "a layer that is no BCH word",
            Refusal::Configuration => "a configuration that is not valid",
        })
    }
}

impl Error for Refusal {}
