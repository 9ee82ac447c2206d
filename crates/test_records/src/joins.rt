// The join: the parts of words on record joined back, a layer edited, and the refusals in their order with outputs kept.
use crate::splits;
use crate::splits::{FOUR_ROOTS, Parts, SIX_ROOTS, SUM_7, SUM_OTHER};
use code::Choice;
use code::Choice::{Number, Parameters};
use refusal::Refusal;
use test_tally::tally::Tally;
use test_tally::words::Word;

pub fn agree() -> Tally {
    let t = Tally::default()
        .with(joins(Number(1), [5, 3, 2, 0], &SUM_7, b"3610000"))
        .with(joins(Number(1), [7, 4, 1, 0], &SUM_OTHER, b"1154622"))
        .with(joins(Number(1), [0; 4], &[1; 21], b"7777777"));
    refusals(by_parameters(edited(t)))
}

// The second word with ones for the BCH word of its layer 2: what is joined splits into the same parts.
fn edited(tally: Tally) -> Tally {
    let mut bch = SUM_OTHER;
    bch[7] = 1;
    bch[8] = 1;
    bch[10] = 1;
    let t = tally.with(joins(Number(1), [7, 4, 1, 0], &bch, b"3356622"));
    splits::gives(t, Number(1), b"3356622", Ok([7, 4, 1, 0]), &bch)
}

// By m and r: the words of 15 symbols, the refusals of the choice before those of the call, and six roots asked of a BCH word that has four.
fn by_parameters(t: Tally) -> Tally {
    t.with(is_joined(FOUR_ROOTS))
        .with(is_joined(SIX_ROOTS))
        .with(is_refused(Parameters { m: 4, r: 6 }, Refusal::NoBchWord))
        .with(is_refused(Parameters { m: 4, r: 2 }, Refusal::Configuration))
        .with(is_refused(Parameters { m: 4, r: 3 }, Refusal::Roots))
        .with(is_refused(Parameters { m: 3, r: 7 }, Refusal::Roots))
        .with(is_refused(Parameters { m: 3, r: 4 }, Refusal::WordLength))
        .with(is_refused(Parameters { m: 5, r: 4 }, Refusal::Code))
}

// The parts of a word are joined to it.
fn is_joined(parts: Parts) -> bool {
    joins(parts.choice, parts.configuration, &parts.bits(), parts.word)
}

// The parts of the word with four roots are refused by another choice.
fn is_refused(choice: Choice, refusal: Refusal) -> bool {
    refuses(
        choice,
        FOUR_ROOTS.configuration,
        &FOUR_ROOTS.bits(),
        refusal,
        15,
    )
}

// Code 1, where each input breaks the later rules too: codes, lengths, a value of 2, one bit of a BCH word changed, and configurations that are not
// valid: a place that is no syndrome, a fourth place, and a sum that is not zero.
fn refusals(t: Tally) -> Tally {
    let mut two = SUM_7;
    two[20] = 2;
    let mut changed = SUM_7;
    changed[20] = 1;
    let valid = [5, 3, 2, 0];
    t.with(refuses(Number(0), [8; 4], &two[..20], Refusal::Code, 6))
        .with(refuses(Number(6), [8; 4], &two[..20], Refusal::Code, 6))
        .with(refuses(Number(1), [8; 4], &two[..20], Refusal::WordLength, 6))
        .with(refuses(Number(1), [8; 4], &two, Refusal::Output, 6))
        .with(refuses(Number(1), [8; 4], &two, Refusal::Output, 8))
        .with(refuses(Number(1), [8; 4], &two, Refusal::NoBchWord, 7))
        .with(refuses(Number(1), [8; 4], &changed, Refusal::NoBchWord, 7))
        .with(refuses(Number(1), valid, &two, Refusal::NoBchWord, 7))
        .with(refuses(Number(1), valid, &changed, Refusal::NoBchWord, 7))
        .with(refuses(Number(1), [8, 3, 2, 0], &SUM_7, Refusal::Configuration, 7))
        .with(refuses(Number(1), [5, 3, 2, 1], &SUM_7, Refusal::Configuration, 7))
        .with(refuses(Number(1), [5, 3, 3, 0], &SUM_7, Refusal::Configuration, 7))
}

// The parts are joined to a word.
fn joins(choice: Choice, configuration: [u16; 4], bch: &[u8], word: &[u8]) -> bool {
    gives(choice, configuration, bch, Ok(()), Word::new(word))
}

// The parts are refused, and so many nines are kept.
fn refuses(
    choice: Choice,
    configuration: [u16; 4],
    bch: &[u8],
    refusal: Refusal,
    output: usize,
) -> bool {
    gives(
        choice,
        configuration,
        bch,
        Err(refusal),
        Word::nines(output),
    )
}

// Joining parts answers, and leaves an output where so many nines were.
fn gives(
    choice: Choice,
    configuration: [u16; 4],
    bch: &[u8],
    answer: Result<(), Refusal>,
    output: Word,
) -> bool {
    let mut space = output.with_nines();
    join::join(choice, configuration, bch, space.symbols_mut()) == answer && space == output
}
