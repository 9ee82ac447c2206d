// The soft pass over the cosets of four layers at once: for each column and layer the least cost with a 0 and with a 1 there. The heads are passed one
// by one, each met with the table behind it; the tail's columns are read off by laying halves on each other. It knows no code. Its functions are for
// the crates above; their promises cite specs/Pass.antt.
#![tactic(auto)]

ghost use Rattle.std.specs.Prelude.{◌≡◌, ◌+◌, ◌*◌, ◌≤◌, length};
ghost use Rattle.lanes.specs.Lanes.{entry, row, put, lanes, limit};
ghost use Rattle.rows.specs.Rows.{sum, less, Sums};
ghost use Rattle.coset.specs.Coset.{Costs, Freed};
ghost use Rattle.pass.specs.Steps.{AdvanceRows, AdvancedRows, FoldRows, Fold, Add, Behind, Made, laid, added};
ghost use Rattle.pass.specs.Pass.{Advance, met, lowest, Pass, Passed};

use coset::FourLayers;

// What a column has at the least with a 0 and with a 1, in each layer.
#[derive(Clone, Copy)]
pub struct Pair {
    pub zero: [u16; 4],
    pub one: [u16; 4],
}

// The less, lane by lane, of r and two sums.
fn lowered(r: [u16; 4], a: [u16; 4], b: [u16; 4], c: [u16; 4], d: [u16; 4]) -> [u16; 4]
    requires first_sum { Sums limit a b }
    requires second_sum { Sums limit c d }
    ensures { result ≡ less r (less (sum a b) (sum c d)) }
{
    rows::least(r, rows::least(rows::plus(a, b), rows::plus(c, d)))
}

// Rows s and u, which differ by a column, carried past it, each from both; on the way they are met with the table behind.
fn advance_rows(
    a: &mut [u16],
    t: &[u16],
    s: usize,
    u: usize,
    z: [u16; 4],
    o: [u16; 4],
    zero: [u16; 4],
    one: [u16; 4],
) -> Pair
    requires { AdvanceRows a.old t.now s u z o }
    ensures { AdvancedRows a.old t.now s u z o zero one a.new result.zero result.one }
{
    let x = lanes::load(a, s);
    let y = lanes::load(a, u);
    let xz = rows::plus(x, z);
    let yo = rows::plus(y, o);
    let yz = rows::plus(y, z);
    let xo = rows::plus(x, o);
    let c = lanes::load(t, s);
    let d = lanes::load(t, u);
    let v = lowered(zero, xz, c, yz, d);
    let w = lowered(one, yo, c, xo, d);
    rows::store_least(a, s, xz, yo);
    rows::store_least(a, u, yz, xo);
    Pair { zero: v, one: w }
}

// The table before a column carried past it, in place, rows s and s ^ h together, for each s in which the highest bit of h is 0; on the way it is met
// with the table behind, and the least with a 0 and with a 1 is written to row i.
fn advance(
    a: &mut [u16],
    t: &[u16],
    q: u32,
    size: usize,
    h: usize,
    z: [u16; 4],
    o: [u16; 4],
    cap: u16,
    zeros: &mut [u16],
    ones: &mut [u16],
    i: usize,
)
    requires advance { Advance q size h a.old t.now z o }
    requires row_of_zeros { i * 4 + 4 ≤ length zeros.old }
    requires row_of_ones { i * 4 + 4 ≤ length ones.old }
    ensures freed { Freed size h a.old z o a.new }
    ensures zeros_after { zeros.new ≡ put zeros.old i (lanes (met size h cap a.old t.now z o 0)) }
    ensures ones_after { ones.new ≡ put ones.old i (lanes (met size h cap a.old t.now z o 1)) }
{
    let top = coset::top_of(h);
    // Not `[cap; 4]`, tried here: the rows are then carried round the loop lane by lane, in six times as many instructions.
    let mut zero = [cap, cap, cap, cap];
    let mut one = [cap, cap, cap, cap];
    let mut s = 0;
    // No `for`: that the rows in which the highest bit is 1 are passed over, a `filter` would say no more plainly.
    while s < size {
        let r = advance_rows(a, t, s, s ^ h, z, o, zero, one);
        let x = r.zero;
        let y = r.one;
        zero = x;
        one = y;
        let next = s + 1;
        s = next + (next & top);
    }
    // The less of a row with itself is the row. One `Pair` and `lanes::store`, tried here, put it together lane by lane.
    rows::store_least(zeros, i, zero, zero);
    rows::store_least(ones, i, one, one);
}

// Row u laid on row s, and the least of such rows so far.
fn fold_rows(a: &mut [u16], s: usize, u: usize, zero: [u16; 4], one: [u16; 4]) -> Pair
    requires { FoldRows a.old s u }
    ensures a_after { a.new ≡ put a.old s (less (row a.old s) (row a.old u)) }
    ensures zero_value { result.zero ≡ less zero (row a.old s) }
    ensures one_value { result.one ≡ less one (row a.old u) }
{
    let x = lanes::load(a, s);
    let y = lanes::load(a, u);
    rows::store_least(a, s, x, y);
    Pair {
        zero: rows::least(zero, x),
        one: rows::least(one, y),
    }
}

// The upper half of a table laid on the lower, row by row, and what each half has at the least written to row i.
fn fold(a: &mut [u16], half: usize, cap: u16, zeros: &mut [u16], ones: &mut [u16], i: usize)
    requires fold { Fold half a.old }
    requires row_of_zeros { i * 4 + 4 ≤ length zeros.old }
    requires row_of_ones { i * 4 + 4 ≤ length ones.old }
    ensures made { Made (laid half a.old) half a.old a.new }
    ensures zeros_after { zeros.new ≡ put zeros.old i (lanes (lowest cap half (entry a.old))) }
    ensures ones_after { ones.new ≡ put ones.old i (lanes (lowest cap half (λ s. entry a.old (half + s)))) }
{
    // Rows made, carried and written as in `advance`.
    let mut zero = [cap, cap, cap, cap];
    let mut one = [cap, cap, cap, cap];
    for s in 0..half {
        let r = fold_rows(a, s, half + s, zero, one);
        let lower = r.zero;
        let upper = r.one;
        zero = lower;
        one = upper;
    }
    rows::store_least(zeros, i, zero, zero);
    rows::store_least(ones, i, one, one);
}

// A table of costs added to another, two rows at a time.
fn add(a: &mut [u16], g: &[u16], size: usize)
    requires { Add size a.old g.now }
    ensures { Made (added a.old g.now) size a.old a.new }
{
    let mut s = 0;
    // Not `step_by(2)`: as in the crate coset, the loop takes more instructions.
    while s < size {
        lanes::store_two(
            a,
            s,
            lanes::plus(lanes::load_two(a, s, s + 1), lanes::load_two(g, s, s + 1)),
        );
        s += 2;
    }
}

// The table behind head i: the one kept or, behind the last head, the costs of the tails.
fn behind(g: &mut [u16], kept: &[i32], i: usize, layers: FourLayers)
    requires { Behind layers.q layers.size i layers.hs.now layers.zs.now layers.os.now kept.now g.old }
    ensures { Costs layers.entry.size layers.entry.hs.now layers.entry.zs.now layers.entry.os.now (i + 1) g.new }
{
    if i + 1 < layers.hs.len() - (layers.q as usize) {
        let at = i * (layers.size * 4);
        let end = at + layers.size * 4;
        coset::restore(&kept[at..end], g);
    } else {
        coset::tail(g, layers);
    }
}

// The soft pass: the heads one by one, then, with the costs of the tails added, the columns of the tail by halves. a and g are used up.
pub fn pass(
    a: &mut [u16],
    g: &mut [u16],
    kept: &[i32],
    layers: FourLayers,
    cap: u16,
    zero: &mut [u16],
    one: &mut [u16],
)
    requires { Pass layers.q layers.size cap a.old g.old layers.hs.now layers.zs.now layers.os.now kept.now zero.old one.old }
    ensures zeros_passed { Passed layers.entry.size cap a.old layers.entry.hs.now layers.entry.zs.now layers.entry.os.now 0 (length layers.entry.hs.now) zero.new }
    ensures ones_passed { Passed layers.entry.size cap a.old layers.entry.hs.now layers.entry.zs.now layers.entry.os.now 1 (length layers.entry.hs.now) one.new }
{
    let heads = layers.hs.len() - layers.q as usize;
    for i in 0..heads {
        behind(g, kept, i, layers);
        let h = layers.hs[i] as usize;
        let z = rows::narrow(layers.zs, i);
        let o = rows::narrow(layers.os, i);
        advance(a, g, layers.q, layers.size, h, z, o, cap, zero, one, i);
    }
    add(a, g, layers.size);
    let mut half = layers.size;
    for k in heads..layers.hs.len() {
        half /= 2;
        fold(a, half, cap, zero, one, k);
    }
}
