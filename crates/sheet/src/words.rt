// The words of a sheet and their parts.
ghost use Rattle.std.specs.Prelude.{◌≡◌, ◌^◌, ◌<◌, get_or};
ghost use Rattle.code.specs.Code.{width};
ghost use Rattle.sheet.specs.Sheet.{as_words, kind, body, head_code, low, count, question_long};

use crate::Form;
use code::Shape;

// Kinds stay numbers: a word's four bits may say none of them, and each place asks for the one or two that it allows, so that nothing is matched on.
pub const HEAD: u32 = 1;

pub const END: u32 = 15;

// The most questions of a sheet.
pub const MOST: usize = 200;

// Question numbers and counts are below this.
pub const NUMBERS: u32 = 16777216;

// A word's body is below this, and its kind stands above.
pub const KINDS: u32 = 268435456;

// The two forms of items: three reliabilities of 8 bits, and six symbols of 4.
pub const RELIABILITIES: Form = Form {
    kind: 2,
    each: 3,
    base: 256,
};

pub const SYMBOLS: Form = Form {
    kind: 3,
    each: 6,
    base: 16,
};

// The word at a place, low byte first; 0 past the last.
pub fn word_at(sheet: &[u8], i: usize) -> u32
    ensures { result ≡ get_or (as_words sheet.now) i 0 }
{
    if sheet.len() / 4 <= i {
        return 0;
    }
    let at = 4 * i;
    u32::from_le_bytes([sheet[at], sheet[at + 1], sheet[at + 2], sheet[at + 3]])
}

pub fn kind_of(w: u32) -> u32
    ensures { result ≡ kind w }
{
    w / KINDS
}

pub fn body_of(w: u32) -> u32
    ensures { result ≡ body w }
{
    w % KINDS
}

pub fn head_code_of(w: u32) -> u32
    ensures { result ≡ head_code w }
{
    w % KINDS / NUMBERS
}

pub fn low_of(w: u32) -> u32
    ensures { result ≡ low w }
{
    w % NUMBERS
}

// How many words so many items take.
#[tactic(auto, unfolding(crate::specs::Sheet::count))]
pub fn count_of(f: Form, n: usize) -> usize
    requires { n < 2 ^ 16 }
    ensures { result ≡ count f n }
{
    (n + (f.each - 1)) / f.each
}

// How many words a question of a code has after its head.
pub fn question_words_of(f: Form, code: u32) -> usize
    ensures { result ≡ question_long f (width code) }
{
    let shape = Shape::numbered(code);
    count_of(f, shape.bits) + count_of(SYMBOLS, shape.n)
}
