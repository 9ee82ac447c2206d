// What the calls for C answer, as structs of numbers: the number of a refusal or 0, and what was found; what is not said is 0.
ghost use Rattle.std.specs.Prelude.{◌≡◌, pos};
ghost use Rattle.refusal.specs.Refusal.{number_of, value_or};
ghost use Rattle.split.specs.Calls.{zeros};
ghost use Rattle.tugzeck.specs.Answers.{asked, marked};

use metric::Verdict;
use refusal::{Refusal, number_of};
use sheet_reader::Question;

/// 0 with the configuration of a word, or the number of a refusal and zeros.
#[repr(C)]
#[derive(Clone, Copy)]
pub struct Splitting {
    pub number: u32,
    pub configuration: [u16; 4],
}

/// 0 with the best metric, or the number of a refusal and 0.
#[repr(C)]
#[derive(Clone, Copy)]
pub struct Decoding {
    pub number: u32,
    pub metric: i32,
}

/// 0 with the verdict (0 none, 1 short, 2 best) and the shortfall, or the number of a refusal with 0 and 0.
#[repr(C)]
#[derive(Clone, Copy)]
pub struct Mark {
    pub number: u32,
    pub verdict: u32,
    pub shortfall: i32,
}

/// 0 and the state after the last draw, or the number of a refusal and the state as it was lent.
#[repr(C)]
#[derive(Clone, Copy)]
pub struct Drawn {
    pub number: u32,
    pub state: u32,
}

/// 0 and the number of bytes of the text, or the number of a refusal and 0.
#[repr(C)]
#[derive(Clone, Copy)]
pub struct Listed {
    pub number: u32,
    pub long: usize,
}

/// 0 with the count of questions, or the number of a refusal and 0.
#[repr(C)]
#[derive(Clone, Copy)]
pub struct Judgement {
    pub number: u32,
    pub questions: u32,
}

/// 0 and found 1 with a question's code and its number; found 0 where none is left. Or the number of a refusal.
#[repr(C)]
#[derive(Clone, Copy)]
pub struct Asked {
    pub number: u32,
    pub found: u32,
    pub code: u32,
    pub question: u32,
}

impl From<Result<[u16; 4], Refusal>> for Splitting {
    ghost from_gives = { λ a s. (s.number ≡ number_of a) × (s.configuration ≡ value_or zeros a) };

    fn from(answer: Result<[u16; 4], Refusal>) -> Splitting {
        Splitting {
            number: number_of(&answer),
            configuration: answer.unwrap_or([0; 4]),
        }
    }
}

impl From<Result<i32, Refusal>> for Decoding {
    ghost from_gives = { λ a d. (d.number ≡ number_of a) × (d.metric ≡ value_or (pos 0) a) };

    fn from(answer: Result<i32, Refusal>) -> Decoding {
        Decoding {
            number: number_of(&answer),
            metric: answer.unwrap_or(0),
        }
    }
}

impl From<Result<Verdict, Refusal>> for Mark {
    ghost from_gives = { marked };

    fn from(answer: Result<Verdict, Refusal>) -> Mark {
        let verdict = answer.unwrap_or(Verdict::NoCodeword);
        Mark {
            number: number_of(&answer),
            verdict: verdict.number(),
            shortfall: verdict.shortfall(),
        }
    }
}

impl From<Result<usize, Refusal>> for Listed {
    ghost from_gives = { λ a l. (l.number ≡ number_of a) × (l.long ≡ value_or 0 a) };

    fn from(answer: Result<usize, Refusal>) -> Listed {
        Listed {
            number: number_of(&answer),
            long: answer.unwrap_or(0),
        }
    }
}

impl From<Result<u32, Refusal>> for Judgement {
    ghost from_gives = { λ a j. (j.number ≡ number_of a) × (j.questions ≡ value_or 0 a) };

    fn from(answer: Result<u32, Refusal>) -> Judgement {
        Judgement {
            number: number_of(&answer),
            questions: answer.unwrap_or(0),
        }
    }
}

impl Drawn {
    pub fn new(answer: Result<u32, Refusal>, state: u32) -> Drawn
        ensures { (result.number ≡ number_of answer) × (result.state ≡ value_or state answer) }
    {
        Drawn {
            number: number_of(&answer),
            state: answer.unwrap_or(state),
        }
    }
}

impl From<Result<Option<Question>, Refusal>> for Asked {
    ghost from_gives = { λ a r. r ≡ asked a };

    fn from(answer: Result<Option<Question>, Refusal>) -> Asked {
        match answer {
            Ok(Some(question)) => Asked {
                number: 0,
                found: 1,
                code: question.code,
                question: question.number,
            },
            _ => Asked {
                number: number_of(&answer),
                found: 0,
                code: 0,
                question: 0,
            },
        }
    }
}
