// The fields of 8 and of 16 elements. An element is a value with its sum, product and inverse; each call refuses by itself
// and promises, for every input, the answer that specs/Answers.antt gives it. `is_width`, `size`, `add`, `multiply`, `power` and
// `FieldTables` are for the crates above, on numbers that are known to be elements.
#![tactic(auto)]

ghost use Rattle.std.specs.Prelude.{◌≡◌, true, ◌-◌, ◌^◌, ◌<◌};
ghost use Rattle.field.specs.Field.{width_good, xor, times, alpha, inverse};
ghost use Rattle.field.specs.Within.{Elements, Inside, Nonzero, Log, Tables};
ghost use Rattle.field.specs.Answers.{one_refusal, two_refusal, Made, SumOf, ProductOf, InverseOf};
ghost use Rattle.refusal.specs.Refusal.{number_of};

mod lookup;

pub use lookup::FieldTables;
use refusal::{Refusal, ensure};

// The powers of α from exponent 0.
pub const ANTILOG_3: [u8; 7] = [1, 2, 4, 3, 6, 7, 5];

pub const ANTILOG_4: [u8; 15] = [1, 2, 4, 8, 3, 6, 12, 11, 5, 10, 7, 14, 15, 13, 9];

// The exponents of the elements from 1 on, the antilog tables turned round; entry 0 is not used.
pub const LOG_3: [u8; 8] = [0, 0, 1, 3, 2, 6, 4, 5];

pub const LOG_4: [u8; 16] = [0, 0, 1, 4, 2, 8, 5, 10, 3, 14, 9, 7, 6, 13, 11, 12];

// An element of the field of 2^m, as a number below 2^m.
#[derive(Clone, Copy)]
pub struct Element {
    pub m: u32,
    pub value: u8,
}

impl Element {
    // The element of the field of 2^m with a number.
    pub fn new(m: u32, number: u8) -> Result<Element, Refusal>
        ensures { Made m number result }
    {
        let made = Element { m, value: number };
        made.check()?;
        Ok(made)
    }

    pub fn sum(self, other: Element) -> Result<Element, Refusal>
        ensures { SumOf self other result }
    {
        self.check_with(other)?;
        Ok(Element {
            m: self.m,
            value: add(self.value, other.value),
        })
    }

    pub fn product(self, other: Element) -> Result<Element, Refusal>
        ensures { ProductOf self other result }
    {
        self.check_with(other)?;
        Ok(Element {
            m: self.m,
            value: multiply(self.m, self.value, other.value),
        })
    }

    // The inverse of 0 is given as 0.
    pub fn inverse(self) -> Result<Element, Refusal>
        ensures { InverseOf self result }
    {
        self.check()?;
        Ok(Element {
            m: self.m,
            value: invert(self.m, self.value),
        })
    }

    // Refused, unless this is an element of a field.
    #[tactic(auto, using(refusal::proofs::Results::stops, refusal::proofs::Results::goes_on), unfolding(crate::specs::Answers::one_refusal, refusal::specs::Refusal::unless))]
    fn check(self) -> Result<(), Refusal>
        ensures { number_of result ≡ one_refusal self }
    {
        ensure(is_width(self.m), Refusal::Code)?;
        ensure(self.value < size(self.m), Refusal::Symbol)
    }

    // Refused, unless these are two elements of one field.
    #[tactic(auto, using(refusal::proofs::Results::stops, refusal::proofs::Results::goes_on), unfolding(crate::specs::Answers::two_refusal, refusal::specs::Refusal::unless))]
    fn check_with(self, other: Element) -> Result<(), Refusal>
        ensures { number_of result ≡ two_refusal self other }
    {
        ensure(is_width(self.m), Refusal::Code)?;
        ensure(self.m == other.m, Refusal::Code)?;
        let top = size(self.m);
        ensure(self.value < top, Refusal::Symbol)?;
        ensure(other.value < top, Refusal::Symbol)
    }
}

// Whether there is a field of 2^m here.
#[tactic(auto, unfolding(crate::specs::Field::width_good))]
pub fn is_width(m: u32) -> bool
    ensures { result ≡ width_good m }
{
    3 <= m && m <= 4
}

// How many elements a field has: 2^m.
pub fn size(m: u32) -> u8
    requires { width_good m ≡ true }
    ensures { result ≡ 2 ^ m }
{
    if m == 3 { 8 } else { 16 }
}

// The sum of two elements.
pub fn add(a: u8, b: u8) -> u8
    ensures { result ≡ xor a b }
{
    a ^ b
}

// α^e for any e: the powers come round after 2^m - 1 of them.
pub fn power(m: u32, e: u32) -> u8
    requires { width_good m ≡ true }
    ensures { result ≡ alpha m e }
{
    if m == 3 {
        let i = (e % 7) as usize;
        return ANTILOG_3[i];
    }
    let i = (e % 15) as usize;
    ANTILOG_4[i]
}

// The exponent of an element that is not 0.
fn log(m: u32, a: u8) -> u32
    requires { Nonzero m a }
    ensures { Log m a result }
{
    let i = a as usize;
    if m == 3 {
        return LOG_3[i] as u32;
    }
    LOG_4[i] as u32
}

// The product of two elements: exponents add.
pub fn multiply(m: u32, a: u8, b: u8) -> u8
    requires { Elements m a b }
    ensures { result ≡ times m a b }
{
    if a == 0 {
        return 0;
    }
    if b == 0 {
        return 0;
    }
    power(m, log(m, a) + log(m, b))
}

// The inverse of an element: the rest of a turn from its exponent; that of 0 is itself.
fn invert(m: u32, a: u8) -> u8
    requires { Inside m a }
    ensures { result ≡ inverse m a }
{
    if a == 0 {
        return a;
    }
    let turn = size(m) as u32 - 1;
    power(m, turn - log(m, a))
}
