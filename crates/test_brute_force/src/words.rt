// Words of seven symbols over the field of 8 elements, each as one number: its symbols are the digits to the base 8, lowest position
// first, so that its bits are those of the word in bit order. Nothing here is the library's: the field is worked out from α·x.

// The digits of a number to the base 8.
pub fn symbols(word: u32) -> [u8; 7] {
    let mut symbols = [0; 7];
    let mut rest = word;
    for symbol in symbols.iter_mut() {
        *symbol = (rest % 8) as u8;
        rest /= 8;
    }
    symbols
}

// The number of a word of seven symbols.
pub fn packed(symbols: [u8; 7]) -> u32 {
    symbols.iter().rev().fold(0, |word: u32, symbol| {
        word.wrapping_mul(8).wrapping_add(u32::from(*symbol % 8))
    })
}

// α^t·x, where α is a zero of X^3 + X + 1, whose bits are those of 11.
fn scaled(t: u32, x: u32) -> u32 {
    let mut v = x;
    for _ in 0..t {
        let y = v % 8 * 2;
        v = y ^ (y / 8 * 11);
    }
    v
}

// The value of a word at α^t, by Horner's rule from the highest position down.
fn value(word: u32, t: u32) -> u32 {
    let mut v = 0;
    for symbol in symbols(word).iter().rev() {
        v = scaled(t, v) ^ u32::from(*symbol);
    }
    v
}

// Whether a word vanishes at every root of its code: α to α^r.
pub fn is_codeword(roots: u32, word: u32) -> bool {
    (1..=roots).all(|t| value(word, t) == 0)
}

// The metric of a word. (No row has so large a one that it wraps.)
pub fn metric(row: &[i16; 21], word: u32) -> i32 {
    let mut sum = 0i32;
    let mut rest = word;
    for reliability in row {
        let r = i32::from(*reliability);
        sum = if rest % 2 == 0 {
            sum.wrapping_add(r)
        } else {
            sum.wrapping_sub(r)
        };
        rest /= 2;
    }
    sum
}

// The first of two words, symbols compared as numbers from position 0.
pub fn first(v: u32, w: u32) -> u32 {
    if symbols(w) < symbols(v) { w } else { v }
}
