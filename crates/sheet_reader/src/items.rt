// The items of a row and of a word, read out of the words of a sheet, each word once.
ghost use Rattle.std.specs.Prelude.{◌≡◌, ◌+◌, ◌^◌, ◌<◌, length, drop, set};
ghost use Rattle.sheet.specs.Sheet.{as_words, symbols, row_of, signed_of};
ghost use Rattle.sheet_reader.specs.Within.{items_from, TakenSays};

use sheet::{Form, words};

// Where a reader of items stands: the item that it took last, what is left of the word that it took it from with how many items, and the
// next word.
#[derive(Clone, Copy)]
struct Spot {
    item: u32,
    rest: u32,
    left: usize,
    next: usize,
}

// The next item.
fn taken(sheet: &[u8], f: Form, s: Spot) -> Spot
    requires next_fits { s.next + 1 < 2 ^ 64 }
    ensures { TakenSays f (as_words sheet.now) s result }
{
    if s.left == 0 {
        let v = words::body_of(words::word_at(sheet, s.next));
        return Spot {
            item: v % f.base,
            rest: v / f.base,
            left: f.each - 1,
            next: s.next + 1,
        };
    }
    Spot {
        item: s.rest % f.base,
        rest: s.rest / f.base,
        left: s.left - 1,
        next: s.next,
    }
}

// Two's complement: the upper half wraps to the numbers below 0.
fn signed(d: u32, base: u32) -> i16
    requires digit { d < base }
    requires small { base < 2 ^ 15 }
    ensures { result ≡ signed_of base d }
{
    let up = base - base / 2;
    ((d + up) % base) as i16 - (up as i16)
}

// The next item, as a reliability at a place of a row.
fn read_item(sheet: &[u8], f: Form, s: Spot, row: &mut [i16], i: usize) -> Spot
    requires next_fits { s.next + 1 < 2 ^ 64 }
    requires inside { i < length row.old }
    ensures taken_says { TakenSays f (as_words sheet.now) s result }
    ensures row_after { row.new ≡ set row.old i (signed_of f.base result.item) }
{
    let t = taken(sheet, f, s);
    row[i] = signed(t.item, f.base);
    t
}

// Fills a row with the reliabilities that begin at a word.
// Tried in one loop over the places: 6 instructions more for each, since by threes the compiler knows which of them begins a word of three.
pub fn read_row(sheet: &[u8], at: usize, f: Form, row: &mut [i16])
    requires places_fit { at + length row.old < 2 ^ 64 }
    ensures { row.new ≡ row_of f (items_from f (length row.old) (drop at (as_words sheet.now))) }
{
    let mut s = Spot {
        item: 0,
        rest: 0,
        left: 0,
        next: at,
    };
    let threes = row.len() / 3;
    for k in 0..threes {
        s = read_item(sheet, f, s, row, 3 * k);
        s = read_item(sheet, f, s, row, 3 * k + 1);
        s = read_item(sheet, f, s, row, 3 * k + 2);
    }
    for i in 3 * threes..row.len() {
        s = read_item(sheet, f, s, row, i);
    }
}

// Fills a word with the symbols that begin at a word of the sheet.
pub fn read_symbols(sheet: &[u8], at: usize, word: &mut [u8])
    requires { at + length word.old < 2 ^ 64 }
    ensures { word.new ≡ items_from symbols (length word.old) (drop at (as_words sheet.now)) }
{
    let mut s = Spot {
        item: 0,
        rest: 0,
        left: 0,
        next: at,
    };
    for place in word.iter_mut() {
        s = taken(sheet, words::SYMBOLS, s);
        *place = s.item as u8;
    }
}
