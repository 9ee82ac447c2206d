// The marker. `judge_word` is offered to callers: it takes any input, a code by its number or by its m and r, and promises what specs/Calls.antt says, in
// the words of the crate metric; how the search goes is no part of the promise. `verdict_on_word` is for the crates above, which know the code and the
// best metric.
#![tactic(auto)]

ghost use Rattle.std.specs.Prelude.{◌≡◌};
ghost use Rattle.refusal.specs.Refusal.{number_of, value_or};
ghost use Rattle.code.specs.Code.{is_codeword};
ghost use Rattle.code.specs.Choice.{choice_refusal, m_of, r_of};
ghost use Rattle.metric.specs.declared.Verdict.TheVariants.{NoCodeword};
ghost use Rattle.metric.specs.Metric.{Greatest};
ghost use Rattle.metric.specs.Scratch.{scratch_long};
ghost use Rattle.metric.specs.Verdict.{verdict_number, shortfall_of};
ghost use Rattle.tails.specs.Tails.{columns};
ghost use Rattle.search.specs.Within.{Roomy, Sizes};
ghost use Rattle.marker.specs.Calls.{mark_refusal, MarkSays};
ghost use Rattle.marker.specs.Within.{Short, Judged, Lent, IsVerdict, VerdictFrom};

use code::{Choice, Shape};
use metric::Verdict;
use refusal::{Refusal, ensure};

// The marker: no codeword, short by exactly what is lacking, or best; the scratch is all 0 after it.
pub fn judge_word(
    choice: Choice,
    row: &[i16],
    word: &[u8],
    scratch: &mut [i32],
) -> Result<Verdict, Refusal>
    ensures { let verdict = value_or NoCodeword result in
        MarkSays (choice_refusal choice) (m_of choice) (r_of choice) row.now word.now (number_of result) (verdict_number verdict) (shortfall_of verdict) scratch.old scratch.new }
{
    let shape = choice.shape()?;
    check_mark(shape, row, word, scratch.len())?;
    let verdict = judge_accepted(shape, row, word);
    scratch.fill(0);
    Ok(verdict)
}

// What a call is refused by after its code.
#[tactic(auto, using(refusal::proofs::Results::stops, refusal::proofs::Results::goes_on, code::proofs::Accepted::narrow), unfolding(crate::specs::Calls::mark_refusal, refusal::specs::Refusal::unless))]
fn check_mark(shape: Shape, row: &[i16], word: &[u8], scratch: usize) -> Result<(), Refusal>
    ensures { number_of result ≡ mark_refusal shape.m row.now word.now scratch }
{
    ensure(row.len() == shape.bits, Refusal::RowLength)?;
    ensure(word.len() == shape.n, Refusal::WordLength)?;
    ensure(scratch == 16384, Refusal::Scratch)?;
    ensure(metric::is_row(metric::BOUND, row), Refusal::Reliability)?;
    ensure(code::symbols_good(shape.m, word), Refusal::Symbol)
}

// What a codeword costs more than the least, with every buffer lent. It needs no words, no marginals, and no tables behind the columns.
fn excess_with(
    shape: Shape,
    row: &[i16],
    hs: &[u16],
    zs: &mut [u32],
    os: &mut [u32],
    t: &mut [u16],
    places: &mut [u16],
    f: &mut [u16],
    word: &[u8],
) -> u32
    requires judged { Judged shape row.now word.now }
    requires columns { hs.now ≡ columns shape.m shape.r }
    requires lent { Lent shape zs.old os.old t.old places.old f.old }
    ensures { Short shape.m shape.r row.now word.now result }
{
    search::costs_of_row(shape, row, hs, zs, os, t);
    let least = search::least_of(shape, t, places, f);
    let own = search::word_cost(metric::BOUND, zs, os, word);
    own - (least as u32)
}

// With the rooms for a table and places lent, which may be longer than the code needs.
fn excess_in(
    shape: Shape,
    row: &[i16],
    t: &mut [u16],
    places: &mut [u16],
    f: &mut [u16],
    word: &[u8],
) -> u32
    requires judged { Judged shape row.now word.now }
    requires roomy { Roomy shape t.old places.old f.old f.old }
    ensures { Short shape.m shape.r row.now word.now result }
{
    let columns = spots::columns(shape.m, shape.r);
    let mut zs = [0u32; 60];
    let mut os = [0u32; 60];
    let n = shape.n;
    let wide = n * 4;
    let states = shape.size * 4;
    let count = search::places_of(shape);
    excess_with(
        shape,
        row,
        &columns[..n],
        &mut zs[..wide],
        &mut os[..wide],
        &mut t[..states],
        &mut places[..count],
        &mut f[..count],
        word,
    )
}

// The same with rooms for so many entries of a table, and for so many places, filled as in a decoding.
fn excess_sized<const STATES: usize, const PLACES: usize>(
    shape: Shape,
    row: &[i16],
    word: &[u8],
) -> u32
    requires judged { Judged shape row.now word.now }
    requires sizes { Sizes shape STATES PLACES }
    ensures { Short shape.m shape.r row.now word.now result }
{
    let mut t = [search::CAP; STATES];
    let mut places = [search::CAP; PLACES];
    let mut f = [search::CAP; PLACES];
    excess_in(shape, row, &mut t, &mut places, &mut f, word)
}

// With rooms of the size that the code needs.
fn excess(shape: Shape, row: &[i16], word: &[u8]) -> u32
    requires { Judged shape row.now word.now }
    ensures { Short shape.m shape.r row.now word.now result }
{
    let count = search::places_of(shape);
    if count <= 64 && shape.size <= 16 {
        excess_sized::<64, 64>(shape, row, word)
    } else if count <= 336 {
        excess_sized::<256, 336>(shape, row, word)
    } else {
        excess_sized::<4096, 4096>(shape, row, word)
    }
}

// The verdict on a codeword, from what its metric lacks of the greatest.
fn verdict_on(shortfall: i32) -> Verdict
    ensures { VerdictFrom shortfall result }
{
    if shortfall == 0 {
        Verdict::Best
    } else {
        Verdict::Short(shortfall)
    }
}

// The mark of an accepted call. It uses nothing of the scratch.
fn judge_accepted(shape: Shape, row: &[i16], word: &[u8]) -> Verdict
    requires { mark_refusal shape.m row.now word.now scratch_long ≡ 0 }
    ensures { IsVerdict shape.m shape.r row.now word.now result }
{
    if !code::is_codeword(shape.m, shape.r, word) {
        return Verdict::NoCodeword;
    }
    verdict_on((2 * excess(shape, row, word)) as i32)
}

// The verdict on a word where the best metric of the row is known, with no search and so with no scratch.
pub fn verdict_on_word(shape: Shape, row: &[i16], word: &[u8], best: i32) -> Verdict
    requires accepted { mark_refusal shape.m row.now word.now scratch_long ≡ 0 }
    requires greatest { Greatest shape.m (is_codeword shape.m shape.r) row.now best }
    ensures { IsVerdict shape.m shape.r row.now word.now result }
{
    let m = shape.m;
    if !code::is_codeword(m, shape.r, word) {
        return Verdict::NoCodeword;
    }
    verdict_on(best - metric::word_metric(m, row, word))
}
