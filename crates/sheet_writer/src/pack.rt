// The words of a question, and their bytes.
ghost use Rattle.std.specs.Prelude.{◌≡◌, List, ℕ, true, ◌++◌, ◌+◌, ◌*◌, ◌-◌, ◌/◌, ◌^◌, ◌<◌, ◌≤◌, length, get_or, take, drop};
ghost use Rattle.metric.specs.Row.{reliability_good};
ghost use Rattle.sheet.specs.Sheet.{digits, packed, unsigned_of, count, question, question_words, question_good, items_words, worded, end_kind};
ghost use Rattle.sheet_writer.specs.Within.{begun, begun_at, Items};
ghost use Rattle.sheet.specs.Within.{RowForm};

use sheet::Form;

// Two's complement: the base is added and taken off again, so that nothing is tested.
fn unsigned(r: i16, base: u32) -> u32
    requires reliable { reliability_good (base / 2 - 1) r ≡ true }
    requires some { 0 < base }
    requires small { base < 2 ^ 15 }
    ensures { result ≡ unsigned_of base r }
{
    (r as i32 + base as i32) as u32 % base
}

// The word that holds the n items from a place on, the first lowest, where `item` says what each is.
fn items_word<I: Fn(usize) -> u32>(item: &I, f: Form, from: usize, n: usize) -> u32
    requires { (ds : List ℕ) × Items (I.pre item.now) (I.post item.now) f.base ds × (length (take f.each (drop from ds)) ≡ n) }
    ensures { (ds : List ℕ) → Items (I.pre item.now) (I.post item.now) f.base ds → length (take f.each (drop from ds)) ≡ n → result ≡ worded f.kind (packed f.base (take f.each (drop from ds))) }
{
    let mut v: u32 = 0;
    for i in (0..n).rev() {
        v = v * f.base + item(from + i);
    }
    f.kind * sheet::words::KINDS + v
}

// Stores a word at a place, low byte first.
fn put_word(output: &mut [u8], at: usize, w: u32)
    requires { at + 4 ≤ length output.old }
    ensures { output.new ≡ take at output.old ++ (digits 256 4 w ++ drop (at + 4) output.old) }
{
    output[at] = (w % 256) as u8;
    output[at + 1] = (w / 256 % 256) as u8;
    output[at + 2] = (w / 256 / 256 % 256) as u8;
    output[at + 3] = (w / 256 / 256 / 256 % 256) as u8;
}

// Stores the words of n items at a place, and answers the place after them. The full words have a loop of their own, so that where
// the form is a constant, how many items such a word holds is one too.
#[inline(always)]
fn write_items<I: Fn(usize) -> u32>(
    item: &I,
    f: Form,
    n: usize,
    output: &mut [u8],
    at: usize,
) -> usize
    requires items { (ds : List ℕ) × Items (I.pre item.now) (I.post item.now) f.base ds × (length ds ≡ n) }
    requires room { at + 4 * count f n ≤ length output.old }
    ensures { (ds : List ℕ) → Items (I.pre item.now) (I.post item.now) f.base ds → length ds ≡ n → (result ≡ at + 4 * count f n) × (output.new ≡ begun_at at (items_words f (count f n) ds) output.old) }
{
    let mut from = 0;
    let mut to = at;
    // No `for`: a turn takes a whole word, so that one over the words would multiply for both places.
    while f.each <= n - from {
        put_word(output, to, items_word(item, f, from, f.each));
        from += f.each;
        to += 4;
    }
    if from < n {
        put_word(output, to, items_word(item, f, from, n - from));
        to += 4;
    }
    to
}

// Stores the words of a question at the start of an output.
#[inline(always)]
pub fn write_question(f: Form, code: u32, number: u32, row: &[i16], word: &[u8], output: &mut [u8])
    requires row_form { RowForm f }
    requires good { question_good f (question code number row.now word.now) ≡ true }
    requires room { 4 * length (question_words f (question code number row.now word.now)) ≤ length output.old }
    ensures { output.new ≡ begun (question_words f (question code number row.now word.now)) output.old }
{
    let head = sheet::words::HEAD * sheet::words::KINDS + (code * sheet::words::NUMBERS + number);
    put_word(output, 0, head);
    let at = write_items(&|i| unsigned(row[i], f.base), f, row.len(), output, 4);
    write_items(
        &|i: usize| word[i] as u32,
        sheet::words::SYMBOLS,
        word.len(),
        output,
        at,
    );
}

// Stores the end of a sheet of so many questions.
pub fn put_end(output: &mut [u8], at: usize, count: u32)
    requires room { at + 4 ≤ length output.old }
    requires few { count ≤ 200 }
    ensures { output.new ≡ take at output.old ++ (digits 256 4 (worded end_kind count) ++ drop (at + 4) output.old) }
{
    put_word(output, at, sheet::words::END * sheet::words::KINDS + count);
}
