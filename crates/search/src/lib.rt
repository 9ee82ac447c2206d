// The search at a code and a row: the costs of a row, its tables, the walk over them with the words that come first, what a word costs by itself, and
// a word from its layers.
// proofs/Searching.antt shows that the least total over the tables of an accepted row is the least cost of a codeword, and that the words that are
// found are those of the first codeword that has it. Its functions are for the decoder and the marker.
#![tactic(auto)]

ghost use Rattle.std.specs.Prelude.{◌≡◌, true, ℕ, ◌+◌, ◌*◌, ◌/◌, ◌%◌, ◌^◌, ◌<◌, ◌≤◌, length, get_or, pos, IfSome};
ghost use Rattle.field.specs.Field.{width_good};
ghost use Rattle.metric.specs.Row.{row_bound, reliability_good, row_good};
ghost use Rattle.metric.specs.Cost.{cost_zero, cost_one, weight_of};
ghost use Rattle.lanes.specs.Lanes.{lane, put_four};
ghost use Rattle.trellis.specs.Trellis.{pick};
ghost use Rattle.trellis.specs.Rows.{symbol, weave};
ghost use Rattle.tails.specs.Tails.{columns};
ghost use Rattle.coset.specs.Coset.{Costs};
ghost use Rattle.gather.specs.Gather.{key_cost};
ghost use Rattle.walk.specs.Walk.{sum4, start, least_total, Slots, Marginals, Rounds};
ghost use Rattle.bridge.specs.Bridge.{reliability, Costed};
ghost use Rattle.spots.specs.Spots.{Placed};
ghost use Rattle.ties.specs.Ties.{Agree};
ghost use Rattle.search.specs.Within.{cap, Spread, CostsTo, CostsWithin, Input, Buffers, Tabled, Laid, Ties, FirstWords, slots_of, steps_of, turns_of, leading, symbol_cost, word_cost, Own, Symbol, Cheap, Walked, LeastLaid, Layered};

use code::Shape;
use coset::FourLayers;

// A number above the cost of every word, and of a layer besides.
pub const CAP: u16 = 75 * metric::BOUND + 1;

// What a 0 and a 1 contradicts of a reliability.
fn cost_of_zero(r: i16) -> u32
    ensures { result ≡ cost_zero r }
{
    r.min(0).unsigned_abs() as u32
}

fn cost_of_one(r: i16) -> u32
    ensures { result ≡ cost_one r }
{
    r.max(0).unsigned_abs() as u32
}

// The reliability at position i of layer j; the fourth layer of m = 3 has none.
fn reliability_at(m: u32, row: &[i16], i: usize, j: usize) -> i16
    requires { (width_good m ≡ true) × (i * m + m ≤ length row.now) }
    ensures { result ≡ reliability m row.now i j }
{
    let w = m as usize;
    if j < w {
        let b = i * w + j;
        return row[b];
    }
    0
}

// The reliabilities of position i, four places.
fn spread_at(m: u32, row: &[i16], i: usize, wide: &mut [i16])
    requires { (width_good m ≡ true) × (i * m + m ≤ length row.now) × (i * 4 + 4 ≤ length wide.old) }
    ensures { wide.new ≡ put_four wide.old (i * 4) (reliability m row.now i) }
{
    let r0 = reliability_at(m, row, i, 0);
    let r1 = reliability_at(m, row, i, 1);
    let r2 = reliability_at(m, row, i, 2);
    let r3 = reliability_at(m, row, i, 3);
    let k = i * 4;
    wide[k + 0] = r0;
    wide[k + 1] = r1;
    wide[k + 2] = r2;
    wide[k + 3] = r3;
}

// A row with four places to a position.
fn spread(m: u32, n: usize, row: &[i16], wide: &mut [i16])
    requires { (width_good m ≡ true) × (length row.now ≡ n * m) × (n * 4 ≤ length wide.old) }
    ensures { Spread m n row.now wide.new }
{
    for i in 0..n {
        spread_at(m, row, i, wide);
    }
}

// What a 0 and a 1 cost at each place.
fn costs(wide: &[i16], zs: &mut [u32], os: &mut [u32])
    requires { (length zs.old ≡ length os.old) × (length zs.old ≤ length wide.now) }
    ensures { CostsTo (length zs.old) wide.now zs.new os.new }
{
    for b in 0..zs.len() {
        let r = wide[b];
        zs[b] = cost_of_zero(r);
        os[b] = cost_of_one(r);
    }
}

// The costs of a row that is spread first.
fn cost_wide(m: u32, n: usize, row: &[i16], zs: &mut [u32], os: &mut [u32])
    requires { CostsWithin m n row.now zs.old os.old }
    ensures { Costed m n row.now zs.new os.new }
{
    let mut wide = [0i16; 60];
    spread(m, n, row, &mut wide);
    costs(&wide, zs, os);
}

// The costs of a row, four layers to a position. At each place they are found without regard to positions, several at a time; with m = 4 the row has four
// places to a position as it is. Else m is 3, and is said so: the compiler then knows the width.
fn cost_rows(m: u32, n: usize, row: &[i16], zs: &mut [u32], os: &mut [u32])
    requires { CostsWithin m n row.now zs.old os.old }
    ensures { Costed m n row.now zs.new os.new }
{
    if m == 4 {
        costs(row, zs, os);
    } else {
        cost_wide(3, n, row, zs, os);
    }
}

// The layers' tables of a row: the keys, and the tables behind the columns, which the soft pass meets.
pub fn of_row(
    shape: Shape,
    row: &[i16],
    hs: &[u16],
    zs: &mut [u32],
    os: &mut [u32],
    t: &mut [u32],
    g: &mut [u16],
    kept: &mut [i32],
)
    requires input { Input shape row.now }
    requires columns { hs.now ≡ columns shape.m shape.r }
    requires buffers { Buffers shape zs.old os.old t.old g.old kept.old }
    ensures tabled { Tabled shape row.now hs.now zs.new os.new t.new kept.new }
    ensures same_length { length kept.new ≡ length kept.old }
{
    cost_rows(shape.m, shape.n, row, zs, os);
    let layers = FourLayers {
        q: shape.q,
        size: shape.size,
        hs,
        zs,
        os,
    };
    coset::make(t, g, kept, layers);
}

// The costs of its cosets alone, for the marker: no keys, and nothing kept for a soft pass, so that the two have the costs of a row alone in common.
pub fn costs_of_row(
    shape: Shape,
    row: &[i16],
    hs: &[u16],
    zs: &mut [u32],
    os: &mut [u32],
    g: &mut [u16],
)
    requires input { Input shape row.now }
    requires columns { hs.now ≡ columns shape.m shape.r }
    requires rooms { (length zs.old ≡ shape.n * 4) × (length os.old ≡ shape.n * 4) × (length g.old ≡ shape.size * 4) }
    ensures layered { Layered shape row.now hs.now zs.new os.new }
    ensures costs { Costs shape.size hs.now zs.new os.new 0 g.new }
{
    cost_rows(shape.m, shape.n, row, zs, os);
    let layers = FourLayers {
        q: shape.q,
        size: shape.size,
        hs,
        zs,
        os,
    };
    coset::make_costs(g, layers);
}

// The places of the walk, and what each costs by a table of keys.
fn lay(shape: Shape, t: &[u32], places: &mut [u16], f: &mut [u16])
    requires lengths { (length t.now ≡ shape.size * 4) × (length places.old ≡ start (slots_of shape) 4) × (length f.old ≡ length places.old) }
    ensures { Laid shape (key_cost t.now) places.new f.new }
{
    spots::fill(shape.m, shape.r, shape.size, places);
    gather::gather(t, places, f);
}

// The same by a table of costs. With the gathering passed in as a closure, the contract of one function would be longer than these two.
fn lay_costs(shape: Shape, g: &[u16], places: &mut [u16], f: &mut [u16])
    requires lengths { (length g.now ≡ shape.size * 4) × (length places.old ≡ start (slots_of shape) 4) × (length f.old ≡ length places.old) }
    ensures { Laid shape (λ x. get_or g.now x 0) places.new f.new }
{
    spots::fill(shape.m, shape.r, shape.size, places);
    gather::gather_costs(g, places, f);
}

// The least that a tuple costs, and the words of the first codeword that costs it.
#[derive(Clone, Copy)]
pub struct Best {
    pub total: u16,
    pub words: [u16; 4],
}

// The steps of a code's walk, which has n turns, and how many of them make a round. A walk of one turn has no steps, and what a code does not need is not
// chosen for it.
fn steps_in_rounds(shape: Shape, n: usize) -> ([u16; 48], usize)
    requires { n ≡ turns_of shape }
    ensures steps { result.0 ≡ steps_of shape }
    ensures rounds { Rounds n result.1 result.0 }
{
    if n == 1 {
        return ([0; 48], 1);
    }
    (
        spots::steps(shape.m, shape.r),
        spots::round(shape.m, shape.r),
    )
}

// All tuples: the least total, and in g the least with each place.
fn walk_all(shape: Shape, f: &[u16], g: &mut [u16]) -> u16
    requires slots { Slots (turns_of shape) f.now (slots_of shape) (steps_of shape) × (length g.old ≡ length f.now) }
    ensures least { result ≡ least_total cap f.now (slots_of shape) (steps_of shape) (turns_of shape) }
    ensures marginals { Marginals (turns_of shape) cap f.now (slots_of shape) (steps_of shape) g.new }
{
    gather::reset(g, CAP);
    let sl = spots::slots(shape.m, shape.r);
    let n = spots::turns(shape.m, shape.r);
    let (st, round) = steps_in_rounds(shape, n);
    walk::walk(f, &sl, &st, n, round, g, CAP).least
}

// The words of the places that take part in the least total, where each slot has one.
fn agree(shape: Shape, t: &[u32], places: &[u16], g: &[u16], least: u16) -> Option<[u16; 4]>
    requires placed { Placed shape.m shape.r shape.size places.now × (length g.now ≡ length places.now) }
    ensures { IfSome result (λ words. Agree (slots_of shape) t.now places.now g.now least words) }
{
    let sl = spots::slots(shape.m, shape.r);
    ties::agree(g, t, places, &sl, least)
}

// Of the tuples that cost the least, the words that come first: the places become words on the way, and are made again.
fn first_words(shape: Shape, t: &[u32], places: &mut [u16], f: &[u16], least: u16) -> [u16; 4]
    requires laid { (length t.now ≡ shape.size * 4) × Laid shape (key_cost t.now) places.old f.now }
    requires slots { Slots (turns_of shape) f.now (slots_of shape) (steps_of shape) }
    requires tied { (i : ℕ) × Ties shape f.now least i }
    ensures first { FirstWords shape t.now places.old f.now least result }
    ensures same_places { places.new ≡ places.old }
{
    let sl = spots::slots(shape.m, shape.r);
    let st = spots::steps(shape.m, shape.r);
    ties::word_places(t, places);
    let words = ties::first_tied(f, places, &sl, &st, spots::turns(shape.m, shape.r), least);
    spots::fill(shape.m, shape.r, shape.size, places);
    words
}

// The words of the first codeword that costs the least: where all that take part agree, these.
fn words_of(
    shape: Shape,
    t: &[u32],
    places: &mut [u16],
    f: &[u16],
    g: &[u16],
    least: u16,
) -> [u16; 4]
    requires cheap { Cheap (key_cost t.now) (length t.now) × (length t.now ≡ shape.size * 4) × Laid shape (key_cost t.now) places.old f.now }
    requires least { least ≡ least_total cap f.now (slots_of shape) (steps_of shape) (turns_of shape) }
    requires marginals { (length g.now ≡ length places.old) × Marginals (turns_of shape) cap f.now (slots_of shape) (steps_of shape) g.now }
    ensures first { FirstWords shape t.now places.old f.now least result }
    ensures same_places { places.new ≡ places.old }
{
    match agree(shape, t, places, g, least) {
        Some(words) => words,
        None => first_words(shape, t, places, f, least),
    }
}

// The walk: the least total, the words of the first codeword that has it, and in g the least with each place.
pub fn best_of(shape: Shape, t: &[u32], places: &mut [u16], f: &mut [u16], g: &mut [u16]) -> Best
    requires cheap { Cheap (key_cost t.now) (length t.now) × (length t.now ≡ shape.size * 4) }
    requires rooms { (length places.old ≡ start (slots_of shape) 4) × (length f.old ≡ length places.old) × (length g.old ≡ length places.old) }
    ensures { Walked shape t.now places.new f.new g.new result.total result.words }
{
    lay(shape, t, places, f);
    let least = walk_all(shape, f, g);
    let words = words_of(shape, t, places, f, g, least);
    Best {
        total: least,
        words,
    }
}

// The least total alone, by a table of costs.
pub fn least_of(shape: Shape, t: &[u16], places: &mut [u16], f: &mut [u16]) -> u16
    requires cheap { Cheap (λ x. get_or t.now x 0) (length t.now) × (length t.now ≡ shape.size * 4) }
    requires rooms { (length places.old ≡ start (slots_of shape) 4) × (length f.old ≡ length places.old) }
    ensures { LeastLaid shape (λ x. get_or t.now x 0) places.new f.new result }
{
    lay_costs(shape, t, places, f);
    let sl = spots::slots(shape.m, shape.r);
    let n = spots::turns(shape.m, shape.r);
    let (st, round) = steps_in_rounds(shape, n);
    walk::least_of(f, &sl, &st, n, round, CAP).least
}

// The bit of a word at a place.
fn bit_at(w: u16, k: u32) -> u8
    requires { k < 16 }
    ensures { (result ≡ w / 2 ^ k % 2) × (result < 2) }
{
    ((w >> k) % 2) as u8
}

// The symbol of four layers at a place.
fn symbol_at(words: [u16; 4], k: u32) -> u8
    requires { k < 16 }
    ensures { result ≡ symbol (λ j. lane words j / 2 ^ k % 2) }
{
    bit_at(words[0], k)
        + 2 * bit_at(words[1], k)
        + 4 * bit_at(words[2], k)
        + 8 * bit_at(words[3], k)
}

// The word of four layers, each a number with position 0 as its leading bit.
pub fn write_word(words: [u16; 4], word: &mut [u8])
    requires { length word.old ≤ 15 }
    ensures { word.new ≡ weave (λ j. leading (length word.old) (lane words j)) }
{
    let last = word.len();
    for i in 0..last {
        word[i] = symbol_at(words, (last - 1 - i) as u32);
    }
}

// What a bit costs.
fn bit_cost(b: u8, z: u32, o: u32) -> u32
    ensures { result ≡ pick b z o }
{
    if b == 0 { z } else { o }
}

// What a symbol costs, from the costs of its position.
fn symbol_cost(top: u16, c: u8, z: [u32; 4], o: [u32; 4]) -> u32
    requires { Symbol top z o }
    ensures { (result ≡ sum4 (λ j. pick (c / 2 ^ j % 2) (lane z j) (lane o j))) × (result ≤ top * 4) }
{
    let a = bit_cost(c / 1 % 2, z[0], o[0]);
    let b = bit_cost(c / 2 % 2, z[1], o[1]);
    let d = bit_cost(c / 4 % 2, z[2], o[2]);
    let e = bit_cost(c / 8 % 2, z[3], o[3]);
    a + b + d + e
}

// What the symbol at position i costs.
fn cost_at(top: u16, zs: &[u32], os: &[u32], word: &[u8], i: usize) -> u32
    requires own { Own top zs.now os.now word.now }
    requires i_in_bounds { i < length word.now }
    ensures { (result ≡ symbol_cost zs.now os.now i (get_or word.now i 0)) × (result ≤ top * 4) }
{
    symbol_cost(top, word[i], lanes::load(zs, i), lanes::load(os, i))
}

// What a word costs by itself. Two symbols a turn.
pub fn word_cost(top: u16, zs: &[u32], os: &[u32], word: &[u8]) -> u32
    requires { Own top zs.now os.now word.now }
    ensures { result ≡ word_cost zs.now os.now 0 word.now }
{
    let mut sum = 0;
    for k in 0..word.len() / 2 {
        let a = cost_at(top, zs, os, word, 2 * k);
        let b = cost_at(top, zs, os, word, 2 * k + 1);
        sum += a + b;
    }
    if word.len() % 2 == 1 {
        sum += cost_at(top, zs, os, word, word.len() - 1);
    }
    sum
}

// The size of a reliability.
fn size_of(r: i16) -> u32
    ensures value { result ≡ cost_zero r + cost_one r }
    ensures bound { result ≤ 32768 }
{
    r.unsigned_abs() as u32
}

// The sum of a row's sizes.
pub fn weight(row: &[i16]) -> u32
    requires { length row.now ≤ 60 }
    ensures { result ≡ weight_of row.now }
{
    let mut sum = 0;
    for r in row {
        sum += size_of(*r);
    }
    sum
}

// How many places the walk of a code has.
pub fn places_of(shape: Shape) -> usize
    ensures { result ≡ start (slots_of shape) 4 }
{
    let sl = spots::slots(shape.m, shape.r);
    sl[4] as usize
}
