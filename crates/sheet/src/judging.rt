// What the words of a sheet are refused by, the first offending word first. Every function takes the form of the reliabilities.
ghost use Rattle.std.specs.Prelude.{◌≡◌, ◌||◌, ◌+◌, ◌/◌, ◌^◌, ◌<◌, ◌≤◌, min, ltb, leb, length, drop};
ghost use Rattle.refusal.specs.Refusal.{number, number_of};
ghost use Rattle.sheet.specs.Sheet.{as_words, count, word_refusal, items_refusal, question_refusal, head_refusal, end_refusal, most};
ghost use Rattle.sheet.specs.Within.{RowForm, outside, ScanSays, judged_from};
ghost use Rattle.sheet.specs.Calls.{judged_of};

use crate::{Form, words};
use code::Choice;
use refusal::{Refusal, ensure};

// What stands above some digits, and whether they are all good. Both are asked: of a bad digit below unused bits the bits are met first.
#[derive(Clone, Copy)]
struct Scan {
    rest: u32,
    good: bool,
}

fn is_outside(d: u32, low: u32, high: u32) -> bool
    ensures { result ≡ (ltb d low || leb high d) }
{
    d < low || high <= d
}

// One pass over n digits: a good one does not stand from `low` to `high` - 1.
fn scanned(v: u32, base: u32, n: usize, low: u32, high: u32) -> Scan
    requires { 0 < base }
    ensures { ScanSays v base n low high result }
{
    let mut rest = v;
    let mut good = true;
    for _ in 0..n {
        good &= is_outside(rest % base, low, high);
        rest /= base;
    }
    Scan { rest, good }
}

// The items of a body of which n are left. Where they fill it, the compiler knows how often the pass goes round.
fn scanned_body(v: u32, f: Form, n: usize, low: u32, high: u32) -> Scan
    ensures { ScanSays v f.base (min f.each n) low high result }
{
    if f.each <= n {
        scanned(v, f.base, f.each, low, high)
    } else {
        scanned(v, f.base, n, low, high)
    }
}

// A word of which n items are left.
#[tactic(auto, using(refusal::proofs::Results::stops, refusal::proofs::Results::goes_on), unfolding(crate::specs::Sheet::word_refusal, crate::specs::Sheet::items, crate::specs::Sheet::unused, crate::specs::Sheet::used, refusal::specs::Refusal::unless))]
fn check_word(w: u32, f: Form, low: u32, high: u32, bad: Refusal, n: usize) -> Result<(), Refusal>
    ensures { number_of result ≡ word_refusal f (number bad) (outside low high) n w }
{
    let scan = scanned_body(words::body_of(w), f, n, low, high);
    ensure(words::kind_of(w) == f.kind, Refusal::Kind)?;
    ensure(scan.rest == 0, Refusal::UnusedBits)?;
    ensure(scan.good, bad)
}

// n items from a word on. Always put in line, so that the compiler knows the numbers of the form: else each item costs a division.
#[inline(always)]
fn check_items(
    sheet: &[u8],
    at: usize,
    f: Form,
    low: u32,
    high: u32,
    bad: Refusal,
    n: usize,
) -> Result<(), Refusal>
    requires few { n < 2 ^ 16 }
    requires place_fits { at + n < 2 ^ 64 }
    ensures { number_of result ≡ items_refusal f (number bad) (outside low high) (count f n) n (drop at (as_words sheet.now)) }
{
    let mut left = n;
    for i in at..at + words::count_of(f, n) {
        ensure(i < sheet.len() / 4, Refusal::RunsOut)?;
        check_word(words::word_at(sheet, i), f, low, high, bad, left)?;
        left = left.saturating_sub(f.each);
    }
    Ok(())
}

// A question of a code, from the word after its head on. The one item that is no reliability is half the base, the least number.
fn check_question(sheet: &[u8], at: usize, f: Form, code: u32) -> Result<(), Refusal>
    requires row_form { RowForm f }
    requires inside { at ≤ length sheet.now / 4 }
    ensures { number_of result ≡ question_refusal f code (drop at (as_words sheet.now)) }
{
    let shape = Choice::Number(code).shape()?;
    let half = f.base / 2;
    check_items(
        sheet,
        at,
        f,
        half,
        half + 1,
        Refusal::Reliability,
        shape.bits,
    )?;
    let behind = at + words::count_of(f, shape.bits);
    let size = field::size(shape.m) as u32;
    check_items(
        sheet,
        behind,
        words::SYMBOLS,
        size,
        16,
        Refusal::Symbol,
        shape.n,
    )
}

// A word that is no end, with what follows it from a word on, where so many heads are still allowed.
#[tactic(auto, using(refusal::proofs::Results::stops, refusal::proofs::Results::goes_on), unfolding(crate::specs::Sheet::head_refusal, crate::specs::Sheet::head_kind, refusal::specs::Refusal::unless))]
fn check_head(sheet: &[u8], at: usize, f: Form, w: u32, left: usize) -> Result<(), Refusal>
    requires row_form { RowForm f }
    requires inside { at ≤ length sheet.now / 4 }
    ensures { number_of result ≡ head_refusal f left w (drop at (as_words sheet.now)) }
{
    ensure(words::kind_of(w) == words::HEAD, Refusal::Kind)?;
    ensure(0 < left, Refusal::Count)?;
    check_question(sheet, at, f, words::head_code_of(w))
}

// An end word after so many questions, with so many words after it.
#[tactic(auto, using(refusal::proofs::Results::stops, refusal::proofs::Results::goes_on), unfolding(crate::specs::Sheet::end_refusal, refusal::specs::Refusal::unless))]
fn check_end(seen: usize, w: u32, after: usize) -> Result<(), Refusal>
    ensures { number_of result ≡ end_refusal seen w after }
{
    ensure(words::head_code_of(w) == 0, Refusal::UnusedBits)?;
    ensure(words::low_of(w) as usize == seen, Refusal::Count)?;
    ensure(after == 0, Refusal::AfterEnd)
}

// Question by question, to the end. The last turn allows no head, so that none comes after it.
pub fn judged_words(sheet: &[u8], f: Form) -> Result<u32, Refusal>
    requires { RowForm f }
    ensures { judged_of result ≡ judged_from f most (as_words sheet.now) }
{
    let count = sheet.len() / 4;
    let mut at = 0;
    for seen in 0..words::MOST + 1 {
        ensure(at < count, Refusal::RunsOut)?;
        let w = words::word_at(sheet, at);
        if words::kind_of(w) == words::END {
            check_end(seen, w, count - (at + 1))?;
            return Ok(seen as u32);
        }
        check_head(sheet, at + 1, f, w, words::MOST - seen)?;
        at += 1 + words::question_words_of(f, words::head_code_of(w));
    }
    unreachable!()
}
