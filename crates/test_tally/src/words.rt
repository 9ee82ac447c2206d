// Words and rows on record, written as text: of a word a hexadecimal digit for each symbol, the first one leading, and of a row a letter for each
// small reliability.
use crate::parts;

// A word of 16 symbols at most, with nines behind them.
#[derive(Clone, Copy, Debug, PartialEq)]
pub struct Word {
    symbols: [u8; 16],
    long: usize,
}

impl Word {
    // The word with these digits.
    pub fn new(digits: &[u8]) -> Word {
        let mut word = Word::nines(digits.len());
        for (symbol, digit) in word.symbols.iter_mut().zip(digits) {
            *symbol = value(*digit);
        }
        word
    }

    // A word of nines, which an output holds before a call.
    pub fn nines(long: usize) -> Word {
        Word {
            symbols: [9; 16],
            long,
        }
    }

    // Nines in its place.
    pub fn with_nines(self) -> Word {
        Word::nines(self.long)
    }

    pub fn symbols(&self) -> &[u8] {
        parts::of(&self.symbols, self.long)
    }

    pub fn symbols_mut(&mut self) -> &mut [u8] {
        let long = self.long;
        parts::of_mut(&mut self.symbols, long)
    }
}

// The value of a hexadecimal digit.
fn value(digit: u8) -> u8 {
    match digit {
        b'a'..=b'f' => digit - b'a' + 10,
        _ => digit % 16,
    }
}

// A row of equal reliabilities but for the first and the last.
pub fn row(all: i16, first: i16, last: i16) -> [i16; 21] {
    let mut row = [all; 21];
    row[0] = first;
    row[20] = last;
    row
}

// What a letter stands for: a to i for -1 to -9, a digit for itself.
fn reliability(letter: u8) -> i16 {
    match letter {
        b'a'..=b'i' => -i16::from(letter % 32),
        _ => i16::from(letter % 16),
    }
}

// The reliabilities of so many letters, 60 at most; zeros behind them.
pub fn reliabilities(letters: &[u8]) -> [i16; 60] {
    let mut row = [0i16; 60];
    for (place, letter) in row.iter_mut().zip(letters) {
        *place = reliability(*letter);
    }
    row
}
