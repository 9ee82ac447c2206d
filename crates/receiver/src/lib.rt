// The receiver: symbols that come lost, as one sample or as a pair of samples, to the reliabilities of a row.
// `receive` is offered to callers: it takes any input and promises what specs/Calls.antt says, each symbol by specs/Receive.antt.
// What a code is, and how long its row, is left to the crate `code`; the reliability of a sample to the crate `quantiser`.
#![tactic(auto)]

ghost use Rattle.std.specs.Prelude.{◌≡◌, [], ◌∷◌, ◌≤◌, length, IfOk};
ghost use Rattle.refusal.specs.Refusal.{number_of, unless};
ghost use Rattle.code.specs.Choice.{choice_refusal, m_of};
ghost use Rattle.receiver.specs.Kind.{kind_number, Decodes};
ghost use Rattle.receiver.specs.Receive.{symbol, taken, total, received, reliabilities_of, received_row};
ghost use Rattle.receiver.specs.Calls.{kinds_good, receive_refusal, ReceiveSays};
ghost use Rattle.receiver.specs.Within.{bits, SymbolWithin, PutSays, RowWithin};

use code::{Choice, Shape};
use refusal::{Refusal, ensure};

/// An in-phase and a quadrature sample.
#[derive(Clone, Copy, Debug, PartialEq)]
pub struct Pair {
    pub in_phase: f32,
    pub quadrature: f32,
}

/// A received symbol: lost with one bit, lost with two, a single sample, or a pair.
#[derive(Clone, Copy, Debug, PartialEq)]
pub enum Received {
    LostOne,
    LostTwo,
    Single(f32),
    Paired(Pair),
}

/// How a symbol comes; callers write a byte for it, 0 to 3 in this order.
#[derive(Clone, Copy, Debug, PartialEq, Eq)]
pub enum Kind {
    LostOne,
    LostTwo,
    Single,
    Paired,
}

impl TryFrom<u8> for Kind {
    type Error = Refusal;

    ghost try_from_gives = { Decodes };

    fn try_from(kind: u8) -> Result<Self, Refusal> {
        match kind {
            0 => Ok(Kind::LostOne),
            1 => Ok(Kind::LostTwo),
            2 => Ok(Kind::Single),
            3 => Ok(Kind::Paired),
            _ => Err(Refusal::SymbolKind),
        }
    }
}

#[tactic(auto, unfolding(crate::specs::Receive::symbol, crate::specs::Receive::taken, crate::specs::Receive::reliabilities_of, crate::specs::Within::bits))]
impl Kind {
    // How many bits a symbol has.
    fn bits(self) -> usize
        ensures { result ≡ bits (kind_number self) }
    {
        match self {
            Kind::LostOne | Kind::Single => 1,
            Kind::LostTwo | Kind::Paired => 2,
        }
    }

    // How many samples it takes.
    fn samples(self) -> usize
        ensures { result ≡ taken (kind_number self) }
    {
        match self {
            Kind::LostOne | Kind::LostTwo => 0,
            Kind::Single => 1,
            Kind::Paired => 2,
        }
    }

    // The symbol, of the first samples.
    fn symbol(self, samples: &[f32]) -> Received
        requires { taken (kind_number self) ≤ length samples.now }
        ensures { result ≡ symbol (kind_number self) samples.now }
    {
        match self {
            Kind::LostOne => Received::LostOne,
            Kind::LostTwo => Received::LostTwo,
            Kind::Single => Received::Single(samples[0]),
            Kind::Paired => Received::Paired(Pair {
                in_phase: samples[0],
                quadrature: samples[1],
            }),
        }
    }
}

// How many bits and samples some symbols have.
#[derive(Clone, Copy)]
struct Counts {
    bits: usize,
    samples: usize,
}

// How many bits and samples the symbols of some kinds have, where each kind is known.
#[tactic(auto, unfolding(refusal::specs::Refusal::unless))]
fn counted(kinds: &[u8]) -> Result<Counts, Refusal>
    ensures refused { number_of result ≡ unless (kinds_good kinds.now) 14 0 }
    ensures bits { IfOk result (λ c. c.bits ≡ total bits kinds.now) }
    ensures samples { IfOk result (λ c. c.samples ≡ total taken kinds.now) }
{
    let mut bits = 0;
    let mut samples = 0;
    for kind in kinds {
        let kind = Kind::try_from(*kind)?;
        bits += kind.bits();
        samples += kind.samples();
    }
    Ok(Counts { bits, samples })
}

// What a call is refused by after its code.
#[tactic(auto, using(refusal::proofs::Results::stops, refusal::proofs::Results::goes_on, crate::proofs::Symbols::row_bits), unfolding(crate::specs::Calls::receive_refusal, crate::specs::Calls::fills, refusal::specs::Refusal::unless))]
fn check_symbols(shape: Shape, kinds: &[u8], samples: &[f32], output: usize) -> Result<(), Refusal>
    ensures { number_of result ≡ receive_refusal shape.m kinds.now samples.now output }
{
    ensure(output == shape.bits, Refusal::Output)?;
    let counts = counted(kinds)?;
    ensure(counts.bits == shape.bits, Refusal::Fill)?;
    ensure(counts.samples == samples.len(), Refusal::Fill)?;
    ensure(!quantiser::any_nan(samples), Refusal::Sample)
}

// Reliabilities at the front of a row, and how many they are.
fn put_entries(entries: &[i16], row: &mut [i16]) -> usize
    requires { length entries.now ≤ length row.old }
    ensures { PutSays entries.now result row.old row.new }
{
    row[..entries.len()].copy_from_slice(entries);
    entries.len()
}

// Writes a symbol's reliabilities to the front of a row, and answers how many they are. A lost bit has reliability 0.
#[tactic(auto, using(crate::proofs::Filling::single_number, crate::proofs::Filling::in_phase_number, crate::proofs::Filling::quadrature_number), unfolding(crate::specs::Receive::reliabilities_of))]
fn put(symbol: Received, row: &mut [i16]) -> usize
    requires { SymbolWithin symbol (length row.old) }
    ensures { PutSays (reliabilities_of symbol) result row.old row.new }
{
    match symbol {
        Received::LostOne => put_entries(&[0], row),
        Received::LostTwo => put_entries(&[0, 0], row),
        Received::Single(x) => put_entries(&[quantiser::quantise_one(x)], row),
        Received::Paired(pair) => put_entries(
            &[
                quantiser::quantise_one(pair.in_phase),
                quantiser::quantise_one(pair.quadrature),
            ],
            row,
        ),
    }
}

// Symbol by symbol, each with the samples that come next, into the places that come next.
fn fill(kinds: &[u8], samples: &[f32], row: &mut [i16])
    requires { RowWithin kinds.now samples.now (length row.old) }
    ensures { row.new ≡ received_row (received kinds.now samples.now) }
{
    let mut at = 0;
    let mut b = 0;
    for kind in kinds {
        let kind = Kind::try_from(*kind).unwrap();
        let symbol = kind.symbol(&samples[at..]);
        at += kind.samples();
        b += put(symbol, &mut row[b..]);
    }
}

/// The received symbols of a code's row to its reliabilities: kinds 0 to 3 stand for a symbol lost with one bit, lost with two, a single
/// sample and a pair. Refuses by 1, 16, 4, 14, 15 or 7, and leaves the row as it was then.
#[tactic(auto, using(crate::proofs::Outcomes::row_within))]
pub fn receive(
    choice: Choice,
    kinds: &[u8],
    samples: &[f32],
    row: &mut [i16],
) -> Result<(), Refusal>
    ensures { ReceiveSays (choice_refusal choice) (m_of choice) kinds.now samples.now (number_of result) row.old row.new }
{
    let shape = choice.shape()?;
    check_symbols(shape, kinds, samples, row.len())?;
    fill(kinds, samples, row);
    Ok(())
}
