// How many comparisons were made, and how many of them agreed. What is counted as agreeing is promised (specs/Tally.antt): a test over this
// count cannot pass by its counting.
ghost use Rattle.std.specs.Prelude.{◌≡◌, false, length, replicate, ◌==◌};
ghost use Rattle.test_tally.specs.Tally.{counted, compared};

use std::fmt;

#[derive(Clone, Copy, Debug, Default, PartialEq)]
pub struct Tally {
    pub agreed: u64,
    pub total: u64,
}

impl Tally {
    // One comparison more. (No program makes so many that the counts wrap.)
    pub fn with(self, agrees: bool) -> Tally
        ensures { result ≡ counted self agrees }
    {
        Tally {
            agreed: self.agreed.wrapping_add(u64::from(agrees)),
            total: self.total.wrapping_add(1),
        }
    }

    // Whether all agreed.
    pub fn is_whole(self) -> bool
        ensures { result ≡ (self.agreed == self.total) }
    {
        self.agreed == self.total
    }

    // One comparison of the lengths, and one of each place with the same number.
    pub fn row(self, found: [i16; 21], number: i16) -> Tally
        ensures { result ≡ compared false 0 found (replicate 21 number) (counted self (length found == 21)) }
    {
        self.places(&found, &[number; 21], false)
    }

    // One comparison of the lengths, and one of each place, or where `layered` of the places of layer 1, every third.
    pub fn places(self, found: &[i16], expected: &[i16], layered: bool) -> Tally
        ensures { result ≡ compared layered 0 found.now expected.now (counted self (length found.now == length expected.now)) }
    {
        let mut t = self.with(found.len() == expected.len());
        for (i, number) in found.iter().enumerate() {
            if !layered || i % 3 == 0 {
                t = t.with(expected.get(i) == Some(number));
            }
        }
        t
    }
}

// A line's count: how many of the comparisons agree.
impl fmt::Display for Tally {
    fn fmt<W: fmt::Write>(&self, f: &mut fmt::Formatter<W>) -> fmt::Result {
        write!(f, "{} of {} agree", self.agreed, self.total)
    }
}
