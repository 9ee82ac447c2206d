// A code that was chosen, by its number or by m and r, with the numbers that follow from them.
ghost use Rattle.std.specs.Prelude.{◌≡◌, true, IfOk};
ghost use Rattle.field.specs.Field.{width_good};
ghost use Rattle.refusal.specs.Refusal.{number_of};
ghost use Rattle.code.specs.Code.{code_good, number_refusal, width, roots, long, syndrome_long, roots_good, accepted, parameter_refusal};
ghost use Rattle.code.specs.Bits.{row_long};
ghost use Rattle.code.specs.Choice.{choice_refusal, m_of, r_of};
ghost use Rattle.code.specs.Numbers.{Numbers};

use refusal::{Refusal, ensure};

/// How a code is chosen: by its number, or by m bits to a symbol and r roots.
#[derive(Clone, Copy, Debug, PartialEq, Eq)]
pub enum Choice {
    Number(u32),
    Parameters { m: u32, r: u32 },
}

/// A code: m bits to a symbol and roots α to α^r, with the numbers that follow from them: n symbols to a word, k of them its message, `bits` = n·m bits
/// to a word and entries to a row, q bits to a layer's syndrome, and `size` = 2^q syndromes.
#[derive(Clone, Copy)]
pub struct Shape {
    pub m: u32,
    pub r: u32,
    pub n: usize,
    pub k: usize,
    pub bits: usize,
    pub q: u32,
    pub size: usize,
    pub ghost numbers: { Numbers m r n k bits q size },
}

impl Choice {
    /// The code that was chosen.
    pub fn shape(self) -> Result<Shape, Refusal>
        ensures refused { number_of result ≡ choice_refusal self }
        ensures m { IfOk result (λ s. s.m ≡ m_of self) }
        ensures r { IfOk result (λ s. s.r ≡ r_of self) }
    {
        match self {
            Choice::Number(code) => {
                check_number(code)?;
                Ok(Shape::numbered(code))
            }
            Choice::Parameters { m, r } => {
                check_parameters(m, r)?;
                Ok(Shape::new(m, r))
            }
        }
    }
}

impl Shape {
    /// The code with a number; any other number has some code's m and r.
    pub fn numbered(code: u32) -> Shape
        ensures m { result.m ≡ width code }
        ensures r { result.r ≡ roots code }
    {
        Shape::new(width_of(code), roots_of(code))
    }

    // The numbers that follow from m and r.
    fn new(m: u32, r: u32) -> Shape
        requires { accepted m r ≡ true }
        ensures m { result.m ≡ m }
        ensures r { result.r ≡ r }
    {
        let n = long_of(m);
        let q = syndrome_long_of(m, r);
        Shape {
            m,
            r,
            n,
            k: n - r as usize,
            bits: row_long_of(m),
            q,
            size: 1 << q,
        }
    }
}

// What the choice of a number is refused by.
#[tactic(auto, using(refusal::proofs::Results::stops, refusal::proofs::Results::goes_on), unfolding(crate::specs::Code::number_refusal, refusal::specs::Refusal::unless))]
fn check_number(code: u32) -> Result<(), Refusal>
    ensures { number_of result ≡ number_refusal code }
{
    ensure(is_code(code), Refusal::Code)
}

// What the choice of m and r is refused by.
#[tactic(auto, using(refusal::proofs::Results::stops, refusal::proofs::Results::goes_on), unfolding(crate::specs::Code::parameter_refusal, refusal::specs::Refusal::unless))]
fn check_parameters(m: u32, r: u32) -> Result<(), Refusal>
    ensures { number_of result ≡ parameter_refusal m r }
{
    ensure(field::is_width(m), Refusal::Code)?;
    ensure(is_roots(m, r), Refusal::Roots)
}

// Whether a code with m bits to a symbol may have r roots. The Reed-Solomon code has n - r message symbols and the BCH code n - q bits, so that
// their difference is q - r.
fn is_roots(m: u32, r: u32) -> bool
    requires { width_good m ≡ true }
    ensures { result ≡ roots_good m r }
{
    match r {
        1..=6 => m * (syndrome_long_of(m, r) - r) <= 16,
        _ => false,
    }
}

// Whether a number is that of a code.
#[tactic(auto, unfolding(crate::specs::Code::code_good))]
fn is_code(code: u32) -> bool
    ensures { result ≡ code_good code }
{
    1 <= code && code <= 5
}

// How many bits a symbol of a code has: m.
fn width_of(code: u32) -> u32
    ensures { result ≡ width code }
{
    if code >= 3 { 4 } else { 3 }
}

// How many roots a code has: r.
fn roots_of(code: u32) -> u32
    ensures { result ≡ roots code }
{
    match code {
        2 => 4,
        4 => 4,
        5 => 6,
        _ => 2,
    }
}

// How many bits a layer's syndrome has.
fn syndrome_long_of(m: u32, r: u32) -> u32
    requires { width_good m ≡ true }
    ensures { result ≡ syndrome_long m r }
{
    if r < 3 {
        return m;
    }
    if r < 5 {
        return m + m;
    }
    if m == 4 { m + m + 2 } else { m + m }
}

// How many symbols a word has: n.
fn long_of(m: u32) -> usize
    requires { width_good m ≡ true }
    ensures { result ≡ long m }
{
    if m == 3 { 7 } else { 15 }
}

// How many bits a word has, and how long a row is: n·m.
fn row_long_of(m: u32) -> usize
    requires { width_good m ≡ true }
    ensures { result ≡ row_long m }
{
    if m == 3 { 21 } else { 60 }
}
