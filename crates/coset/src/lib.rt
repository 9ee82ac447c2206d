// The coset search of four layers at once: for each layer and coset the least cost of its words. The decoder has it as a key, with the first word that
// has this cost, and besides the tables of least costs that the soft pass meets; the marker asks for no word and has the costs alone, in 16 bits. It
// knows columns, costs and xor, and no code. Its functions are for the crates above; their promises cite specs/Coset.antt.
#![tactic(auto)]

ghost use Rattle.std.specs.Prelude.{◌≡◌, ◌+◌, ◌-◌, ◌*◌, ◌^◌, ◌<◌, ◌≤◌, length};
ghost use Rattle.lanes.specs.Lanes as L;
ghost use Rattle.lanes.specs.Lanes.{twofold};
ghost use Rattle.coset.specs.Coset.{Fit, Costs, Keys, Kept, Free, Freed, Room};
ghost use Rattle.coset.specs.Runs.{Pair, paired, Run, RanRows, Top, Double, Doubled, keyed, Keyable, Tails, Numbered, Behind, Copied, Keeps, Restore, Restored};

use rows::Cost;

/// The layers that are searched: 2^q cosets, the columns, and four costs of a 0 and of a 1 to a column, which together stay small.
#[derive(Clone, Copy)]
pub struct FourLayers<'a> {
    pub q: u32,
    pub size: usize,
    pub hs: &'a [u16],
    pub zs: &'a [u32],
    pub os: &'a [u32],
    pub ghost fit: { Fit q size hs.now zs.now os.now },
}

// Two rows that differ by a column, each from both: by itself with a 0, or by the other with a 1.
fn pair<C: Cost>(t: &mut [C], s: usize, u: usize, z: [C; 4], o: [C; 4])
    requires { Pair C.limit (C.numbers t.old) s u (C.numbers z) (C.numbers o) }
    ensures { C.numbers t.new ≡ paired (C.numbers t.old) s u (C.numbers z) (C.numbers o) }
{
    let a = lanes::load(t, s);
    let b = lanes::load(t, u);
    rows::store_least(t, s, rows::plus(a, z), rows::plus(b, o));
    rows::store_least(t, u, rows::plus(b, z), rows::plus(a, o));
}

// The pairs whose first row is in from, .., to - 1: there the column leads up.
fn run<C: Cost>(t: &mut [C], size: usize, from: usize, to: usize, h: usize, z: [C; 4], o: [C; 4])
    requires { Run C.limit h size from to (C.numbers t.old) (C.numbers z) (C.numbers o) }
    ensures { RanRows h size from to (C.numbers z) (C.numbers o) (C.numbers t.old) (C.numbers t.new) }
{
    for s in from..to {
        pair(t, s, s ^ h, z, o);
    }
}

// The highest bit of h.
pub fn top_of(h: usize) -> usize
    requires { 0 < h }
    ensures { Top h result }
{
    1 << h.ilog2()
}

// One column more, in place: rows s and s ^ h together, for each s in which the highest bit of h is 0. Of each block of two runs the first leads up,
// to the second.
fn free<C: Cost>(t: &mut [C], q: u32, size: usize, h: usize, z: [C; 4], o: [C; 4])
    requires { Free C.limit q size h (C.numbers t.old) (C.numbers z) (C.numbers o) }
    ensures { Freed size h (C.numbers t.old) (C.numbers z) (C.numbers o) (C.numbers t.new) }
{
    let step = top_of(h);
    for base in (0..size).step_by(step + step) {
        run(t, size, base, base + step, h, z, o);
    }
}

// Two rows with a bit more, of cost c.
fn raised(r: [u16; 8], c: [u16; 4]) -> [u16; 8]
    requires { L.Sums r (twofold c) }
    ensures { result ≡ L.sum r (twofold c) }
{
    lanes::plus(r, lanes::twice(c))
}

// The rows of one tail bit more, two at a time: those with a 1 behind those with a 0.
fn double(g: &mut [u16], half: usize, z: [u16; 4], o: [u16; 4])
    requires { Double half g.old z o }
    ensures { Doubled half half z o g.old g.new }
{
    let mut s = 0;
    // Not `step_by(2)`, tried here: the loop takes half as many instructions again.
    while s < half {
        let r = lanes::load_two(g, s, s + 1);
        lanes::store_two(g, s, raised(r, z));
        lanes::store_two(g, half + s, raised(r, o));
        s += 2;
    }
}

// The costs of the tails: by doubling, from the last position to the first of the last q. Row s + 2^k is row s with a 1 at position n - 1 - k.
// Inlined, so that the struct is not put together in memory: else a decoding takes up to 0.7 % more instructions.
#[inline(always)]
pub fn tail(g: &mut [u16], layers: FourLayers)
    requires { length g.old ≡ layers.size * 4 }
    ensures { Costs layers.entry.size layers.entry.hs.now layers.entry.zs.now layers.entry.os.now (length layers.entry.hs.now - layers.entry.q) g.new }
{
    let last = layers.hs.len() - 1;
    lanes::store(g, 0, rows::narrow(layers.zs, last));
    lanes::store(g, 1, rows::narrow(layers.os, last));
    let mut half = 2;
    for i in (layers.hs.len() - layers.q as usize..last).rev() {
        let z = rows::narrow(layers.zs, i);
        let o = rows::narrow(layers.os, i);
        double(g, half, z, o);
        half += half;
    }
}

// A row of costs as a row of keys, with a number behind each.
#[tactic(auto, unfolding(crate::specs::Runs::keyed))]
fn key_row(r: [u32; 4], low: u32) -> [u32; 4]
    requires { Keyable r low }
    ensures { result ≡ keyed r low }
{
    [
        r[0] * 65536 + low,
        r[1] * 65536 + low,
        r[2] * 65536 + low,
        r[3] * 65536 + low,
    ]
}

// The keys of the tails: each tail is its own number.
fn key_tails(g: &[u16], size: usize, t: &mut [u32])
    requires { Tails size g.now t.old }
    ensures { Numbered g.now size t.new }
{
    for s in 0..size {
        lanes::store(t, s, key_row(rows::widen(g, s), s as u32));
    }
}

// The costs of a table of keys, kept from place `at` on.
fn copy(t: &[u32], kept: &mut [i32], at: usize)
    requires { at + length t.now ≤ length kept.old }
    ensures { Copied t.now at (length t.now) kept.old kept.new }
{
    for (k, key) in t.iter().enumerate() {
        kept[at + k] = (key / 65536) as i32;
    }
}

// The costs from position i on, kept at their place. Those of position 0 are not.
fn keep(t: &[u32], kept: &mut [i32], i: usize)
    requires { i * length t.now ≤ length kept.old }
    ensures { Keeps i t.now kept.old kept.new }
{
    if 0 < i {
        copy(t, kept, (i - 1) * t.len());
    }
}

// A table of costs that was kept. A cost is neither above what 15 bits and a sign hold nor below it: said so, several are narrowed by one instruction.
pub fn restore(kept: &[i32], g: &mut [u16])
    requires { Restore g.old kept.now }
    ensures { Restored kept.now (length g.old) g.old g.new }
{
    for k in 0..g.len() {
        g[k] = kept[k].clamp(-32768, 32767) as u16;
    }
}

// The keys from position i on, from those behind it. A 1 there weighs `bit` in the number of a word.
fn free_at(t: &mut [u32], layers: FourLayers, i: usize, bit: u32)
    requires { Behind layers.q layers.size layers.hs.now layers.zs.now layers.os.now i bit t.old }
    ensures { Keys layers.entry.size layers.entry.hs.now layers.entry.zs.now layers.entry.os.now i t.new }
{
    let h = layers.hs[i] as usize;
    let z = key_row(lanes::load(layers.zs, i), 0);
    let o = key_row(lanes::load(layers.os, i), bit);
    free(t, layers.q, layers.size, h, z, o);
}

// For the decoder: the keys of all cosets, and the tables kept on the way. g is room.
pub fn make(t: &mut [u32], g: &mut [u16], kept: &mut [i32], layers: FourLayers)
    requires { Room layers.q layers.size layers.hs.now t.old g.old kept.old }
    ensures keys { Keys layers.entry.size layers.entry.hs.now layers.entry.zs.now layers.entry.os.now 0 t.new }
    ensures kept { Kept layers.entry.q layers.entry.size layers.entry.hs.now layers.entry.zs.now layers.entry.os.now kept.new }
    ensures kept_len_unchanged { length kept.new ≡ length kept.old }
{
    tail(g, layers);
    key_tails(g, layers.size, t);
    let mut bit = layers.size as u32;
    for i in (0..layers.hs.len() - layers.q as usize).rev() {
        free_at(t, layers, i, bit);
        keep(t, kept, i);
        bit += bit;
    }
}

// For the marker: the least costs of all cosets.
pub fn make_costs(g: &mut [u16], layers: FourLayers)
    requires { length g.old ≡ layers.size * 4 }
    ensures { Costs layers.entry.size layers.entry.hs.now layers.entry.zs.now layers.entry.os.now 0 g.new }
{
    tail(g, layers);
    for i in (0..layers.hs.len() - layers.q as usize).rev() {
        free(
            g,
            layers.q,
            layers.size,
            layers.hs[i] as usize,
            rows::narrow(layers.zs, i),
            rows::narrow(layers.os, i),
        );
    }
}
