// Of the tuples that cost the least, the one whose word comes first: where the words of all places that take part agree, these; else a second walk.
// Its functions are for the crates above; their promises cite specs/Ties.antt.
#![tactic(auto)]

ghost use Rattle.std.specs.Prelude.{◌≡◌, false, ℕ, ◌+◌, ◌<◌, ◌≤◌, IfSome, ltb, length, get_or};
ghost use Rattle.walk.specs.Walk.{start, Slots};
ghost use Rattle.ties.specs.Ties.{number_of, Costs, FirstTied, word_at, Agree};
ghost use Rattle.ties.specs.Turn.{four, words_at, Inside, earlier, meet, NoneCosts, BeforeAll, Spans, OneWord};

// The word of place p: the last 16 bits of its key.
fn word_of(t: &[u32], places: &[u16], p: usize) -> u16
    requires place_inside { p < length places.now }
    requires entry_inside { get_or places.now p 0 < length t.now }
    ensures { result ≡ word_at t.now places.now p }
{
    let k = places[p] as usize;
    (t[k] % 65536) as u16
}

// The bits that all of some entries have, and those that any has: every entry lies between.
#[derive(Clone, Copy)]
pub struct Span {
    pub low: u16,
    pub high: u16,
}

// The span of the entries of those places from a to e whose number is the least. Each place is treated alike, so that the loop becomes one of vector
// instructions.
fn slot_span(g: &[u16], places: &[u16], a: usize, e: usize, least: u16) -> Span
    requires { (e ≤ length g.now) × (e ≤ length places.now) }
    ensures { Spans places.now g.now least a e result.low result.high }
{
    let mut low = 65535;
    let mut high = 0;
    for p in a..e {
        let x = g[p];
        let v = places[p];
        low &= if x == least { v } else { 65535 };
        high |= if x == least { v } else { 0 };
    }
    Span { low, high }
}

// The word of slot j: where the span is one number, all places that take part have one entry, and its word is read once.
fn slot_word(g: &[u16], t: &[u32], places: &[u16], sl: &[u16], j: usize, least: u16) -> Option<u16>
    requires g_len { (length g.now ≡ length places.now) × (length sl.now ≡ 5) × (start sl.now 4 ≡ length places.now) }
    requires slots_follow { (j : ℕ) → j < 4 → start sl.now j ≤ start sl.now (j + 1) }
    requires one_of_four { j < 4 }
    ensures { IfSome result (λ word. OneWord sl.now t.now places.now g.now least j word) }
{
    let Span { low, high } = slot_span(g, places, sl[j] as usize, sl[j + 1] as usize, least);
    if low != high {
        return None;
    }
    let key = t.get(low as usize)?;
    Some((*key % 65536) as u16)
}

// The words of the places whose number in g is the least, where each slot has one.
pub fn agree(g: &[u16], t: &[u32], places: &[u16], sl: &[u16], least: u16) -> Option<[u16; 4]>
    requires g_len { (length g.now ≡ length places.now) × (length sl.now ≡ 5) × (start sl.now 4 ≡ length places.now) }
    requires slots_follow { (j : ℕ) → j < 4 → start sl.now j ≤ start sl.now (j + 1) }
    ensures { IfSome result (λ words. Agree sl.now t.now places.now g.now least words) }
{
    let w0 = slot_word(g, t, places, sl, 0, least)?;
    let w1 = slot_word(g, t, places, sl, 1, least)?;
    let w2 = slot_word(g, t, places, sl, 2, least)?;
    let w3 = slot_word(g, t, places, sl, 3, least)?;
    Some([w0, w1, w2, w3])
}

// The word of each place, in place of where its key stands.
pub fn word_places(t: &[u32], places: &mut [u16])
    requires { (p : ℕ) → p < length places.old → get_or places.old p 0 < length t.now }
    ensures { (length places.new ≡ length places.old) × ((p : ℕ) → p < length places.old → get_or places.new p 0 ≡ word_at t.now places.old p) }
{
    for p in 0..places.len() {
        places[p] = word_of(t, places, p);
    }
}

// Whether words w come before words v: less has the positions at which w's symbol is the less, and more those at which it is the greater. A layer
// weighs more than those before it, and the first position at which two symbols differ is the highest bit of the two. The words are taken one by one: where
// they are two arrays, the loop over the lanes does not become one of vector instructions.
fn comes_before(w0: u16, w1: u16, w2: u16, w3: u16, v0: u16, v1: u16, v2: u16, v3: u16) -> bool
    ensures { result ≡ ltb (number_of (four w0 w1 w2 w3)) (number_of (four v0 v1 v2 v3)) }
{
    let d0 = w0 ^ v0;
    let d1 = w1 ^ v1;
    let d2 = w2 ^ v2;
    let d3 = w3 ^ v3;
    let a = d0 & v0;
    let b = a ^ (d1 & (a ^ v1));
    let c = b ^ (d2 & (b ^ v2));
    let less = c ^ (d3 & (c ^ v3));
    let more = (d0 | d1 | d2 | d3) ^ less;
    more < less
}

// The words of lane x.
fn words_of(w: &[u16], a: [usize; 4], x: usize) -> [u16; 4]
    requires { Inside (length w.now) a × (x < 16) }
    ensures { result ≡ words_at w.now a x }
{
    [w[a[0] + x], w[a[1] + x], w[a[2] + x], w[a[3] + x]]
}

// Whether a lane costs the least.
fn any_costs(t: [u16; 16], least: u16) -> bool
    ensures { result ≡ false → NoneCosts t least 16 }
{
    let mut any = false;
    for x in 0..16 {
        any |= t[x] == least;
    }
    any
}

// Whether a lane costs the least and b does not come before it.
fn any_counts(t: [u16; 16], w: &[u16], a: [usize; 4], least: u16, b: [u16; 4]) -> bool
    requires { Inside (length w.now) a }
    ensures { result ≡ false → BeforeAll t w.now a least b 16 }
{
    let mut any = false;
    for x in 0..16 {
        let v0 = w[a[0] + x];
        let v1 = w[a[1] + x];
        let v2 = w[a[2] + x];
        let v3 = w[a[3] + x];
        any |= (t[x] == least) & !comes_before(b[0], b[1], b[2], b[3], v0, v1, v2, v3);
    }
    any
}

// v where it costs the least and b does not come before it, else b.
fn earlier_of(least: u16, t: u16, v: [u16; 4], b: [u16; 4]) -> [u16; 4]
    ensures { result ≡ earlier least t v b }
{
    if t != least {
        return b;
    }
    if comes_before(b[0], b[1], b[2], b[3], v[0], v[1], v[2], v[3]) {
        return b;
    }
    v
}

// What the sixteen lanes leave of b, one after another.
fn meet_lanes(t: [u16; 16], w: &[u16], a: [usize; 4], least: u16, b: [u16; 4]) -> [u16; 4]
    requires { Inside (length w.now) a }
    ensures { result ≡ meet t w.now a least b 16 }
{
    let mut r = b;
    for x in 0..16 {
        let v = words_of(w, a, x);
        let m = earlier_of(least, t[x], v, r);
        r = m;
    }
    r
}

// One turn. Most have no lane that costs the least; and where many do, most have none that comes before what is found.
#[inline(always)]
fn meet_turn(t: [u16; 16], w: &[u16], a: [usize; 4], least: u16, b: [u16; 4]) -> [u16; 4]
    requires { Inside (length w.now) a }
    ensures { result ≡ meet t w.now a least b 16 }
{
    if !any_costs(t, least) {
        return b;
    }
    if !any_counts(t, w, a, least, b) {
        return b;
    }
    meet_lanes(t, w, a, least, b)
}

// Of the tuples that cost the least, the words that come first: the same walk again, with the same running total.
pub fn first_tied(f: &[u16], w: &[u16], sl: &[u16], st: &[u16], n: usize, least: u16) -> [u16; 4]
    requires slots { Slots n f.now sl.now st.now }
    requires w_len { length w.now ≡ length f.now }
    requires some_costs { (i : ℕ) × Costs n f.now sl.now st.now least i }
    ensures { FirstTied n f.now sl.now st.now w.now least result }
{
    let mut a = walk::first(f, sl);
    let mut best = [65535; 4];
    let mut k = 0;
    // with a break in its middle: a turn that is met in two places, or a test for turn 0 at each, takes more instructions
    loop {
        let m = meet_turn(a.total, w, a.places, least, best);
        best = m;
        k += 1;
        if k == n {
            break;
        }
        let b = walk::next(f, st, k, a);
        a = b;
    }
    best
}
