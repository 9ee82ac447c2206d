// The split: coset leaders, configurations and BCH words, with source document 000's lists (5), (6) and (12), and the refusals.
// Of its generator (10) holds what the roots decide: it lists the values at α^2, and at α the multiples of (1, α^4, α^2) take its place.
// Of its matrix (4), which has 22 columns for 21 bits, the sum of the glue vectors is taken as (7) writes it, layer by layer.
use code::Choice::{Number, Parameters};
use code::{Choice, Shape};
use field::Element;
use refusal::Refusal;
use test_tally::parts;
use test_tally::tally::Tally;
use test_tally::words::Word;

// (7), layer by layer, and the layers of the other word on record.
pub const SUM_7: [u8; 21] = [
    1, 0, 1, 0, 0, 0, 1, 1, 1, 0, 1, 0, 0, 0, 0, 0, 0, 0, 0, 0, 0,
];

pub const SUM_OTHER: [u8; 21] = [
    1, 1, 1, 0, 0, 1, 0, 0, 0, 1, 0, 1, 1, 1, 1, 0, 1, 1, 1, 0, 0,
];

// A word of 15 symbols with its parts: the configuration, and the BCH word of each layer as a number, position i weighing 2^i.
#[derive(Clone, Copy)]
pub struct Parts {
    pub choice: Choice,
    pub word: &'static [u8],
    pub configuration: [u16; 4],
    pub layers: [u16; 4],
}

// With six roots a syndrome has the value at α^5, and leaders tie in weight.
pub const FOUR_ROOTS: Parts = Parts {
    choice: Parameters { m: 4, r: 4 },
    word: b"585238d27c16b05",
    configuration: [46, 116, 113, 45],
    layers: [21989, 5016, 19287, 627],
};

pub const SIX_ROOTS: Parts = Parts {
    choice: Parameters { m: 4, r: 6 },
    word: b"39b24838d27c16b",
    configuration: [607, 72, 610, 841],
    layers: [22087, 24909, 10680, 19906],
};

// The words of message 1 then zeros.
const OF_MESSAGE_1: [Parts; 3] = [
    Parts {
        choice: Parameters { m: 4, r: 1 },
        word: b"210000000000000",
        configuration: [2, 1, 0, 0],
        layers: [0; 4],
    },
    Parts {
        choice: Parameters { m: 4, r: 4 },
        word: b"78cd10000000000",
        configuration: [74, 17, 125, 238],
        layers: [2077, 0, 2077, 17422],
    },
    Parts {
        choice: Parameters { m: 4, r: 6 },
        word: b"cac397100000000",
        configuration: [449, 60, 451, 676],
        layers: [0, 0, 0, 1335],
    },
];

impl Parts {
    // The bits of the layers, 15 places each.
    pub fn bits(self) -> [u8; 60] {
        let mut bits = [0u8; 60];
        for (i, bit) in bits.iter_mut().enumerate() {
            *bit = ((self.layers[i / 15] >> (i % 15)) % 2) as u8;
        }
        bits
    }
}

pub fn agree() -> Tally {
    // The first word has the layers of (7).
    let mut t = gives(lists(), Number(1), b"3610000", Ok([5, 3, 2, 0]), &SUM_7);
    t = gives(t, Number(1), b"1154622", Ok([7, 4, 1, 0]), &SUM_OTHER);
    t = gives(t, Number(1), b"7777777", Ok([0; 4]), &[1; 21]);
    // Codes, lengths, symbols, and words that are no codewords: the output keeps its nines.
    t = refused(t, Number(6), b"8", Refusal::Code, 1);
    t = refused(t, Number(1), b"800000", Refusal::WordLength, 1);
    t = refused(t, Number(1), b"8000000", Refusal::Output, 20);
    t = refused(t, Number(1), b"8000000", Refusal::Symbol, 21);
    t = refused(t, Number(1), b"1000000", Refusal::NoCodeword, 21);
    t = refused(t, Number(2), b"3610000", Refusal::NoCodeword, 21);
    by_parameters(t)
}

fn by_parameters(tally: Tally) -> Tally {
    let mut t = tally;
    for parts in OF_MESSAGE_1 {
        t = parted(t, parts);
    }
    t = parted(parted(t, FOUR_ROOTS), SIX_ROOTS);
    let word = b"78cd10000000000";
    t = refused(t, Parameters { m: 4, r: 6 }, word, Refusal::NoCodeword, 60);
    refused(t, Parameters { m: 4, r: 3 }, word, Refusal::Roots, 60)
}

// A word splits into its parts.
fn parted(t: Tally, parts: Parts) -> Tally {
    gives(
        t,
        parts.choice,
        parts.word,
        Ok(parts.configuration),
        &parts.bits(),
    )
}

// Splitting a word into so many nines is refused.
fn refused(t: Tally, choice: Choice, word: &[u8], refusal: Refusal, output: usize) -> Tally {
    gives(t, choice, word, Err(refusal), parts::of(&[9; 60], output))
}

// Splitting a word answers a configuration or a refusal, and leaves an output where so many nines were.
pub fn gives(
    t: Tally,
    choice: Choice,
    word: &[u8],
    answer: Result<[u16; 4], Refusal>,
    output: &[u8],
) -> Tally {
    let mut space = [9u8; 60];
    let left = parts::of_mut(&mut space, output.len());
    let found = split::split(choice, Word::new(word).symbols(), left);
    t.with(found.err() == answer.err())
        .with(found.ok() == answer.ok())
        .with(&*left == output)
}

// Of code 1 the entries of each list: a symbol x, of (5) the position of the leader's one, as a bit, and of (6) and (12) the configuration, which
// starts with the entry's number. The word whose message begins with x has it.
const LISTS: [(u8, u16, [u16; 4]); 8] = [
    (0, 0, [0, 0, 0, 0]),
    (6, 1, [1, 6, 4, 0]),
    (2, 2, [2, 7, 3, 0]),
    (4, 8, [3, 1, 7, 0]),
    (7, 4, [4, 5, 6, 0]),
    (1, 64, [5, 3, 2, 0]),
    (5, 16, [6, 2, 5, 0]),
    (3, 32, [7, 4, 1, 0]),
];

fn lists() -> Tally {
    let mut t = Tally::default();
    for (x, leader, configuration) in LISTS {
        let found = configuration_of(x);
        let number = configuration[0];
        t = t
            .with(leads(number, leader))
            .with(found == Ok(configuration))
            .with(found == Ok([number, times(6, number), times(4, number), 0]))
            .with(found.is_ok_and(is_generated_at_square));
    }
    t.with(!is_generated_at_square([3, 6, 1, 0]))
}

// The configuration of the word of code 1 whose message is x and four zeros.
fn configuration_of(x: u8) -> Result<[u16; 4], Refusal> {
    let mut word = [0u8; 7];
    code::encode(Number(1), &[x, 0, 0, 0, 0], &mut word)?;
    split::split(Number(1), &word, &mut [0; 21])
}

// Whether the leader of coset k of code 1 is this word.
fn leads(k: u16, leader: u16) -> bool {
    let shape = Shape::numbered(1);
    usize::from(k) < shape.size && split::leader(shape, k) == leader
}

// Whether the squares of a tuple, its values at α^2, are a multiple of (10): (α^3, α^4, 1).
fn is_generated_at_square(c: [u16; 4]) -> bool {
    let third = times(c[2], c[2]);
    times(c[0], c[0]) == times(3, third) && times(c[1], c[1]) == times(6, third)
}

// The product of two numbers in the field of 8, and 8 where one is not of it.
fn times(a: u16, b: u16) -> u16 {
    element(a)
        .product(element(b))
        .map_or(8, |e| u16::from(e.value))
}

fn element(a: u16) -> Element {
    Element {
        m: 3,
        value: (a % 256) as u8,
    }
}
