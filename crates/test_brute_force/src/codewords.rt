// The codewords of a code, which are the words that vanish at its roots. The greatest metrics and the first best word are found by trying them all.
use crate::words;
use std::alloc::{AllocError, Global};
use std::cmp::Ordering;

// How many words of seven symbols there are.
const WORDS: u32 = 2097152;

// The codewords with so many roots, ascending.
#[derive(Drop)]
pub struct Codewords {
    pub roots: u32,
    pub words: Vec<u32>,
}

// The best words: their metric, the first of them, and how many there are.
#[derive(Clone, Copy)]
pub struct Best {
    pub metric: i32,
    pub first: u32,
    pub count: u32,
}

impl Best {
    // One word more, with its metric.
    fn with(self, metric: i32, word: u32) -> Best {
        match metric.cmp(&self.metric) {
            Ordering::Less => self,
            Ordering::Greater => Best {
                metric,
                first: word,
                count: 1,
            },
            Ordering::Equal => Best {
                metric,
                first: words::first(self.first, word),
                count: self.count.wrapping_add(1),
            },
        }
    }
}

impl Codewords {
    pub fn with_roots(alloc: Global, roots: u32) -> Result<Codewords, AllocError> {
        let words = (0..WORDS)
            .filter(|word| words::is_codeword(roots, *word))
            .collect(alloc)?;
        Ok(Codewords { roots, words })
    }

    // The codeword at a place, or the zero word behind the last one.
    pub fn at(&self, i: usize) -> u32 {
        self.words.get(i).copied().unwrap_or(0)
    }

    // The best codewords of a row.
    pub fn best_of(&self, row: &[i16; 21]) -> Best {
        let mut best = Best {
            metric: i32::MIN,
            first: 0,
            count: 0,
        };
        for word in &self.words {
            best = best.with(words::metric(row, *word), *word);
        }
        best
    }

    // A soft output of a row: the greatest metric with a 0 at a bit less that with a 1.
    pub fn soft_output(&self, row: &[i16; 21], bit: u32) -> Option<i32> {
        let zero = self.greatest(row, bit, false)?;
        let one = self.greatest(row, bit, true)?;
        Some(zero.wrapping_sub(one))
    }

    // The greatest metric of the codewords that have a bit, or have it not.
    fn greatest(&self, row: &[i16; 21], bit: u32, has: bool) -> Option<i32> {
        self.words
            .iter()
            .filter(|word| (**word & bit != 0) == has)
            .map(|word| words::metric(row, *word))
            .max()
    }
}
