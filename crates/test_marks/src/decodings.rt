// The decoder: metrics, first best words and soft outputs on record, and the refusals in their order with the outputs kept.
use code::Choice;
use metric::Verdict;
use refusal::Refusal;
use test_tally::tally::Tally;
use test_tally::words::Word;
use test_tally::{parts, words};

// Rows with two best words, written as letters: the code, the row, its metric, the first best word and the other one. The other one would be the
// first if layers, low bits or last positions were compared first. Its configuration comes before that of the first word, and in a code's second row
// behind it.
const TIES: [(u32, &[u8], i32, &[u8], &[u8]); 10] = [
    (1, b"1a4594di1h18372683ff4", 90, b"1031043", b"2131003"),
    (1, b"22173977c7cc4ec4b1d65", 78, b"1046641", b"2042621"),
    (2, b"5a7b5di4bhddcg17d067h", 60, b"1457306", b"2114724"),
    (2, b"8ffee86572a7i1b2h4f4e", 61, b"5702725", b"6001761"),
    (
        3,
        b"ab8b7cb424b0i8363b9g8851ge1gb8f694bga4c74c9g932cef27hci6ag3h",
        284,
        b"96c1a0f5c5a837b",
        b"a6c180b5c5a837b",
    ),
    (
        3,
        b"2ai3797h46681hi354g07bb7cf3d766c883g03fg67hig66g42ea22178c68",
        302,
        b"580646b88cc9402",
        b"680742b88cc9402",
    ),
    (
        4,
        b"a6cdg981f939451e0if1a365b6i7fg7e58c59hhf8fcah2f7c164cgg8170f",
        291,
        b"d118615b46e5379",
        b"d11cf15b0e67178",
    ),
    (
        4,
        b"1b8cgc88ba5a6i4id48546c9750fi488d8cc4153169bh3ca0hf5b29e97cd",
        271,
        b"03ba1483d08569c",
        b"a33a1489d28d69c",
    ),
    (
        5,
        b"b547f4d3ci5b6efg18d3e4051499ia8chi44c8853b2cdh60bb36050gi16i",
        241,
        b"05bc450b71e7399",
        b"152c570931ab7c9",
    ),
    (
        5,
        b"94ba65f5855663d5ab4f51c6291d3ff44dge26502h6ddbfe8d7gd1acdh32",
        225,
        b"460084c6e1afac3",
        b"c404b7c7e9a7a9b",
    ),
];

// What the scratch holds before a call.
const RUBBISH: i32 = -123456789;

pub fn agree() -> Tally {
    // All 10, the row of the sheet's questions; all -10; all 127; and all zero, where every codeword is best and the zero word is the first.
    let mut t = gives(Tally::default(), 10, 10, 210, 0, 60, false);
    t = gives(t, -10, -10, 210, 7, -60, false);
    t = gives(t, 127, 127, 2667, 0, 762, false);
    t = gives(t, 0, 0, 0, 0, 0, false);
    t = decodes(t, 2, &[b'0'; 21], 0, b"0000000");
    for code in 3..=5 {
        t = decodes(t, code, &[b'0'; 60], 0, b"000000000000000");
    }
    // All 10 but bit 0 at -10: the zero word, and of the soft outputs those of layer 1, bits 0, 3, 6 and so on.
    t = gives(t, 10, -10, 190, 0, 20, true);
    for (code, letters, metric, first, other) in TIES {
        t = decodes(t, code, letters, metric, first).with(is_best(code, letters, other));
    }
    refusals(t)
}

// Codes, rows, outputs, the scratch, and reliabilities: -128 at the last bit, and 128 at the first.
fn refusals(tally: Tally) -> Tally {
    let high = [128i16; 21];
    let mut t = refuses(
        tally,
        1,
        &words::row(0, 0, -128),
        7,
        21,
        16384,
        Refusal::Reliability,
    );
    t = refuses(
        t,
        1,
        &words::row(0, 128, 0),
        7,
        21,
        16384,
        Refusal::Reliability,
    );
    t = refuses(t, 6, &high[..20], 6, 20, 16383, Refusal::Code);
    t = refuses(t, 0, &high[..20], 6, 20, 16383, Refusal::Code);
    t = refuses(t, 1, &high[..20], 6, 20, 16383, Refusal::RowLength);
    t = refuses(t, 3, &high, 6, 20, 16383, Refusal::RowLength);
    t = refuses(t, 5, &high, 6, 20, 16383, Refusal::RowLength);
    t = refuses(t, 1, &high, 6, 21, 16383, Refusal::Output);
    t = refuses(t, 1, &high, 7, 20, 16383, Refusal::Output);
    t = refuses(t, 1, &high, 7, 21, 16383, Refusal::Scratch);
    refuses(t, 1, &high, 7, 21, 0, Refusal::Scratch)
}

// Whether every number of the scratch is x.
fn holds(scratch: &[i32], x: i32) -> bool {
    scratch.iter().all(|number| *number == x)
}

// In code 1, decoding a row of equal reliabilities but for the first answers a metric and leaves a word of equal symbols and equal soft
// outputs; where `layered`, those of layer 1 alone are compared.
fn gives(
    t: Tally,
    all: i16,
    first: i16,
    metric: i32,
    symbol: u8,
    soft: i16,
    layered: bool,
) -> Tally {
    let row = words::row(all, first, all);
    let mut word = [9u8; 7];
    let mut softs = [9i16; 21];
    let mut scratch = [RUBBISH; 16384];
    let found = decoder::decode(Choice::Number(1), &row, &mut word, &mut softs, &mut scratch);
    t.with(found == Ok(metric))
        .with(holds(&scratch, 0))
        .with(word == [symbol; 7])
        .places(&softs, &[soft; 21], layered)
}

// Decoding a row, written as letters, answers a metric and leaves a word.
fn decodes(t: Tally, code: u32, letters: &[u8], metric: i32, word: &[u8]) -> Tally {
    let row = words::reliabilities(letters);
    let expected = Word::new(word);
    let mut left = expected.with_nines();
    let mut softs = [9i16; 60];
    let mut scratch = [RUBBISH; 16384];
    let found = decoder::decode(
        Choice::Number(code),
        parts::of(&row, letters.len()),
        left.symbols_mut(),
        parts::of_mut(&mut softs, letters.len()),
        &mut scratch,
    );
    t.with(found == Ok(metric))
        .with(holds(&scratch, 0))
        .with(left == expected)
}

// Whether the marker calls a word best.
fn is_best(code: u32, letters: &[u8], word: &[u8]) -> bool {
    let row = words::reliabilities(letters);
    let mut scratch = [RUBBISH; 16384];
    marker::judge_word(
        Choice::Number(code),
        parts::of(&row, letters.len()),
        Word::new(word).symbols(),
        &mut scratch,
    ) == Ok(Verdict::Best)
}

// Decoding a row into so many nines and soft nines, with so much scratch, is refused, and answers no metric; both outputs keep their nines, and the
// scratch what it held.
fn refuses(
    t: Tally,
    code: u32,
    row: &[i16],
    word: usize,
    softs: usize,
    scratch: usize,
    refusal: Refusal,
) -> Tally {
    let mut symbols = [9u8; 7];
    let mut space = [9i16; 21];
    let mut lent = [RUBBISH; 16384];
    let found = decoder::decode(
        Choice::Number(code),
        row,
        parts::of_mut(&mut symbols, word),
        parts::of_mut(&mut space, softs),
        parts::of_mut(&mut lent, scratch),
    );
    t.with(found.err() == Some(refusal))
        .with(holds(&lent, RUBBISH))
        .with(found.ok() == None)
        .with(symbols == [9; 7])
        .with(space == [9; 21])
}
