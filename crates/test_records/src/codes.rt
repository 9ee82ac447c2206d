// The codes: encoding, reading back, the codeword test, and the refusals in their order with outputs kept.
use code::Choice;
use code::Choice::{Number, Parameters};
use refusal::Refusal;
use test_tally::tally::Tally;
use test_tally::words::Word;

// Messages, each with the codeword that carries it; by m and r those of each code that may be chosen, from the message 1 then zeros.
const CARRIED: [(Choice, &[u8], &[u8]); 20] = [
    (Number(1), b"10000", b"3610000"),
    (Number(2), b"100", b"3213100"),
    (Number(3), b"1000000000000", b"861000000000000"),
    (Number(4), b"10000000000", b"78cd10000000000"),
    (Number(5), b"100000000", b"cac397100000000"),
    (Number(1), b"54622", b"1154622"),
    (Number(1), b"77777", b"7777777"),
    (Number(2), b"000", b"0000000"),
    (Parameters { m: 3, r: 1 }, b"100000", b"2100000"),
    (Parameters { m: 3, r: 2 }, b"10000", b"3610000"),
    (Parameters { m: 3, r: 3 }, b"1000", b"5251000"),
    (Parameters { m: 3, r: 4 }, b"100", b"3213100"),
    (Parameters { m: 3, r: 5 }, b"10", b"2653410"),
    (Parameters { m: 3, r: 6 }, b"1", b"1111111"),
    (
        Parameters { m: 4, r: 1 },
        b"10000000000000",
        b"210000000000000",
    ),
    (
        Parameters { m: 4, r: 2 },
        b"1000000000000",
        b"861000000000000",
    ),
    (
        Parameters { m: 4, r: 4 },
        b"10000000000",
        b"78cd10000000000",
    ),
    (Parameters { m: 4, r: 6 }, b"100000000", b"cac397100000000"),
    (
        Parameters { m: 4, r: 4 },
        b"38d27c16b05",
        b"585238d27c16b05",
    ),
    (Parameters { m: 4, r: 6 }, b"838d27c16", b"b39b24838d27c16"),
];

// Words that are no codewords.
const NO_CODEWORDS: [(Choice, &[u8]); 6] = [
    (Number(1), b"1000000"),
    (Number(2), b"3610000"),
    (Number(3), b"861000000000001"),
    (Number(5), b"78cd10000000000"),
    (Parameters { m: 4, r: 4 }, b"861000000000000"),
    (Parameters { m: 4, r: 6 }, b"78cd10000000000"),
];

// What the codeword test refuses: codes, lengths and symbols; by m and r the choice.
const NOT_TESTED: [(Choice, &[u8], Refusal); 12] = [
    (Number(0), b"8", Refusal::Code),
    (Number(6), b"8", Refusal::Code),
    (Number(1), b"80000000", Refusal::WordLength),
    (Number(1), b"8000000", Refusal::Symbol),
    (Parameters { m: 2, r: 9 }, b"8", Refusal::Code),
    (Parameters { m: 5, r: 0 }, b"8", Refusal::Code),
    (Parameters { m: 3, r: 0 }, b"8", Refusal::Roots),
    (Parameters { m: 3, r: 7 }, b"8", Refusal::Roots),
    (Parameters { m: 4, r: 0 }, b"8", Refusal::Roots),
    (Parameters { m: 4, r: 3 }, b"8", Refusal::Roots),
    (Parameters { m: 4, r: 5 }, b"8", Refusal::Roots),
    (Parameters { m: 4, r: 7 }, b"8", Refusal::Roots),
];

// What the encoder refuses, with the length of its output: codes, lengths and symbols, and the refusals of a choice before those of the call.
const NOT_ENCODED: [(Choice, &[u8], Refusal, usize); 9] = [
    (Number(6), b"8", Refusal::Code, 1),
    (Number(0), b"8", Refusal::Code, 1),
    (Number(1), b"8000", Refusal::WordLength, 1),
    (Number(1), b"80000", Refusal::Output, 8),
    (Number(1), b"80000", Refusal::Symbol, 7),
    (Number(2), b"008", Refusal::Symbol, 7),
    (Parameters { m: 5, r: 4 }, b"8", Refusal::Code, 1),
    (Parameters { m: 4, r: 3 }, b"8", Refusal::Roots, 1),
    (
        Parameters { m: 4, r: 4 },
        b"0000000000000",
        Refusal::WordLength,
        15,
    ),
];

// What the reader refuses: codes, lengths, symbols, and words that are no codewords.
const NOT_READ: [(Choice, &[u8], Refusal, usize); 9] = [
    (Number(6), b"8", Refusal::Code, 1),
    (Number(1), b"800000", Refusal::WordLength, 1),
    (Number(1), b"8000000", Refusal::Output, 6),
    (Number(1), b"8000000", Refusal::Symbol, 5),
    (Number(1), b"1000000", Refusal::NoCodeword, 5),
    (Number(2), b"3610000", Refusal::NoCodeword, 3),
    (Parameters { m: 2, r: 4 }, b"8", Refusal::Code, 1),
    (Parameters { m: 4, r: 5 }, b"8", Refusal::Roots, 1),
    (
        Parameters { m: 4, r: 4 },
        b"861000000000000",
        Refusal::NoCodeword,
        11,
    ),
];

pub fn agree() -> Tally {
    sixteen_refused(calls_refused(words_tested(messages_carried())))
}

// Each message is encoded to its word, the word is read to the message, and the word is a codeword.
fn messages_carried() -> Tally {
    let mut t = Tally::default();
    for (choice, message, word) in CARRIED {
        t = t
            .with(gives(code::encode, choice, message, Ok(()), Word::new(word)))
            .with(gives(code::read_word, choice, word, Ok(()), Word::new(message)))
            .with(tested(choice, word) == Ok(true));
    }
    t
}

fn words_tested(tally: Tally) -> Tally {
    let mut t = tally;
    for (choice, word) in NO_CODEWORDS {
        t = t.with(tested(choice, word) == Ok(false));
    }
    for (choice, word, refusal) in NOT_TESTED {
        t = t.with(tested(choice, word) == Err(refusal));
    }
    t
}

// Outputs hold nines, and keep them.
fn calls_refused(tally: Tally) -> Tally {
    let mut t = tally;
    for (choice, message, refusal, output) in NOT_ENCODED {
        t = t.with(gives(
            code::encode,
            choice,
            message,
            Err(refusal),
            Word::nines(output),
        ));
    }
    for (choice, word, refusal, output) in NOT_READ {
        t = t.with(gives(
            code::read_word,
            choice,
            word,
            Err(refusal),
            Word::nines(output),
        ));
    }
    t
}

// The symbol 16 of code 3, at the last place, by the codeword test and by the encoder.
fn sixteen_refused(t: Tally) -> Tally {
    let mut word = [0u8; 15];
    word[14] = 16;
    let mut space = [9u8; 15];
    let encoded = code::encode(Number(3), &word[2..], &mut space);
    t.with(code::check_word(Number(3), &word) == Err(Refusal::Symbol))
        .with(encoded == Err(Refusal::Symbol) && space == [9; 15])
}

fn tested(choice: Choice, word: &[u8]) -> Result<bool, Refusal> {
    code::check_word(choice, Word::new(word).symbols())
}

// A call on a word or a message answers, and leaves an output where so many nines were.
fn gives<F: Fn(Choice, &[u8], &mut [u8]) -> Result<(), Refusal>>(
    call: F,
    choice: Choice,
    from: &[u8],
    answer: Result<(), Refusal>,
    output: Word,
) -> bool
    requires { F.IsAlwaysCallable call }
{
    let mut space = output.with_nines();
    call(choice, Word::new(from).symbols(), space.symbols_mut()) == answer && space == output
}
