// The walk over tuples of four places, sixteen side by side in the vector registers: the least total, and for the soft outputs the least with each
// place. The total is kept running: where a slot changes its row, the old row is taken off and the new one put on, and one adjustment is counted. It knows no
// code. Its functions are for the crates above; their promises cite specs/Walk.antt and specs/Turns.antt. What a turn calls is put in line, so that its rows
// stay in registers: the walk takes a third more instructions where it is not.
#![tactic(auto)]

ghost use Rattle.std.specs.Prelude.{◌≡◌, true, cond, List, ℕ, ◌+◌, ◌-◌, ◌^◌, ◌<◌, ◌≤◌, min, length, get_or};
ghost use Rattle.lanes.specs.Lanes.{lane, limit};
ghost use Rattle.trellis.specs.Trellis.{least_of};
ghost use Rattle.walk.specs.Walk.{changes, movers, least_total, Slots, Rounds, Marginals};
ghost use Rattle.walk.specs.Turns.{Each, Small, Row, low, lows, Blank, Standing, Shift, Shifted, Movable, Moved, Together, Begins};

// Lane by lane, the less.
#[inline(always)]
fn lesser(a: [u16; 16], b: [u16; 16]) -> [u16; 16]
    ensures { Each 16 (λ x. lane result x ≡ min (lane a x) (lane b x)) }
{
    let mut r = a;
    for x in 0..16 {
        r[x] = lanes::less_of(a[x], b[x]);
    }
    r
}

// The row at place p.
#[inline(always)]
pub fn row_at(f: &[u16], p: usize) -> [u16; 16]
    requires { p + 16 ≤ length f.now }
    ensures { Row f.now p result }
{
    let mut r = [0u16; 16];
    for x in 0..16 {
        r[x] = f[p + x];
    }
    r
}

// Lane by lane, the sum of four rows.
#[inline(always)]
pub fn sum_of(a: [u16; 16], b: [u16; 16], c: [u16; 16], d: [u16; 16]) -> [u16; 16]
    requires { Each 16 (λ x. lane a x + lane b x + lane c x + lane d x < limit) }
    ensures { Each 16 (λ x. lane result x ≡ lane a x + lane b x + lane c x + lane d x) }
{
    let mut r = [0u16; 16];
    for x in 0..16 {
        r[x] = a[x] + b[x] + c[x] + d[x];
    }
    r
}

// Lane by lane, the total with a row taken off and another put on.
#[inline(always)]
fn exchanged(t: [u16; 16], off: [u16; 16], on: [u16; 16]) -> [u16; 16]
    requires { Each 16 (λ x. (lane off x ≤ lane t x) × (lane t x + lane on x < 2 ^ 16)) }
    ensures { Each 16 (λ x. lane result x ≡ lane t x - lane off x + lane on x) }
{
    let mut r = t;
    for x in 0..16 {
        r[x] = t[x] - off[x] + on[x];
    }
    r
}

// The row at p lowered to t.
#[inline(always)]
fn lower(g: &mut [u16], p: usize, t: [u16; 16])
    requires { p + 16 ≤ length g.old }
    ensures { g.new ≡ low g.old p t }
{
    for x in 0..16 {
        g[p + x] = lanes::less_of(g[p + x], t[x]);
    }
}

// The first rows of the places a, two or three of them, lowered to t where marginals are asked for.
#[inline(always)]
fn lower_first<const SOFT: bool>(g: &mut [u16], a: [usize; 4], t: [u16; 16], w: u32)
    requires two_or_three { (2 ≤ w) × (w ≤ 3) }
    requires rows_inside { SOFT ≡ true → Each 4 (λ j. lane a j + 16 ≤ length g.old) }
    ensures { g.new ≡ cond SOFT (lows g.old a t 0 w) g.old }
{
    if SOFT {
        lower(g, a[0], t);
        lower(g, a[1], t);
        if w == 3 {
            lower(g, a[2], t);
        }
    }
}

// The other rows.
#[inline(always)]
fn lower_rest<const SOFT: bool>(g: &mut [u16], a: [usize; 4], t: [u16; 16], w: u32)
    requires two_or_three { (2 ≤ w) × (w ≤ 3) }
    requires rows_inside { SOFT ≡ true → Each 4 (λ j. lane a j + 16 ≤ length g.old) }
    ensures { g.new ≡ cond SOFT (lows g.old a t w (4 - w)) g.old }
{
    if SOFT {
        if w == 3 {
            lower(g, a[3], t);
        } else {
            lower(g, a[2], t);
            lower(g, a[3], t);
        }
    }
}

// Where the walk stands: the places of the four slots and their rows, the running total, and how many adjustments were made.
#[derive(Clone, Copy)]
pub struct At {
    pub places: [usize; 4],
    pub rows: [[u16; 16]; 4],
    pub total: [u16; 16],
    pub adjusted: u32,
}

// Turn 0, of any steps.
#[inline(always)]
pub fn first(f: &[u16], sl: &[u16]) -> At
    requires { Begins f.now sl.now }
    ensures { (st : List ℕ) → Standing f.now sl.now st 0 result }
{
    let places = [
        sl[0] as usize,
        sl[1] as usize,
        sl[2] as usize,
        sl[3] as usize,
    ];
    let r0 = row_at(f, places[0]);
    let r1 = row_at(f, places[1]);
    let r2 = row_at(f, places[2]);
    let r3 = row_at(f, places[3]);
    let total = sum_of(r0, r1, r2, r3);
    let rows = [r0, r1, r2, r3];
    At {
        places,
        rows,
        total,
        adjusted: 0,
    }
}

// A slot at a turn: its place and row, the total with it, and how many adjustments were made.
#[derive(Clone, Copy)]
pub struct Slot {
    pub place: usize,
    pub row: [u16; 16],
    pub total: [u16; 16],
    pub adjusted: u32,
}

// A slot that changes: the old row off, the new row on.
#[inline(always)]
fn shift(f: &[u16], e: usize, p: usize, r: [u16; 16], t: [u16; 16], n: u32) -> Slot
    requires { Shift f.now e p r t n × (0 < e) }
    ensures { Shifted f.now e p t n result }
{
    let q = p ^ e;
    let row = row_at(f, q);
    let total = exchanged(t, r, row);
    Slot {
        place: q,
        row,
        total,
        adjusted: n + 1,
    }
}

// A slot that may change.
#[inline(always)]
pub fn may_shift(f: &[u16], e: usize, p: usize, r: [u16; 16], t: [u16; 16], n: u32) -> Slot
    requires { Shift f.now e p r t n }
    ensures { Shifted f.now e p t n result }
{
    if e == 0 {
        return Slot {
            place: p,
            row: r,
            total: t,
            adjusted: n,
        };
    }
    shift(f, e, p, r, t, n)
}

// Turn k from the one before it, whatever slots change. A loop over the slots takes up to a fifth more instructions.
#[inline(always)]
pub fn next(f: &[u16], st: &[u16], k: usize, a: At) -> At
    requires { Movable f.now st.now k a }
    ensures { Moved f.now st.now k a result }
{
    let b = k.trailing_zeros() as usize * 4;
    let At {
        places: [p0, p1, p2, p3],
        rows: [r0, r1, r2, r3],
        total,
        adjusted,
    } = a;
    let Slot {
        place: p0,
        row: r0,
        total,
        adjusted,
    } = may_shift(f, st[b] as usize, p0, r0, total, adjusted);
    let Slot {
        place: p1,
        row: r1,
        total,
        adjusted,
    } = may_shift(f, st[b + 1] as usize, p1, r1, total, adjusted);
    let Slot {
        place: p2,
        row: r2,
        total,
        adjusted,
    } = may_shift(f, st[b + 2] as usize, p2, r2, total, adjusted);
    let Slot {
        place: p3,
        row: r3,
        total,
        adjusted,
    } = may_shift(f, st[b + 3] as usize, p3, r3, total, adjusted);
    At {
        places: [p0, p1, p2, p3],
        rows: [r0, r1, r2, r3],
        total,
        adjusted,
    }
}

// Any turn: the first one as it is.
#[inline(always)]
fn at_turn(f: &[u16], st: &[u16], k: usize, a: At) -> At
    requires { 0 < k → Movable f.now st.now k a }
    ensures value { k ≡ 0 → result ≡ a }
    ensures moved { 0 < k → Moved f.now st.now k a result }
{
    if k == 0 {
        return a;
    }
    next(f, st, k, a)
}

// A turn within a round: the first two or three slots change, by the same step.
#[inline(always)]
fn turn(f: &[u16], st: &[u16], k: usize, a: At, w: u32) -> At
    requires movable { Movable f.now st.now k a }
    requires together { Together st.now k w }
    requires two_or_three { (2 ≤ w) × (w ≤ 3) }
    ensures { Moved f.now st.now k a result }
{
    let e = st[k.trailing_zeros() as usize * 4] as usize;
    let At {
        places: [p0, p1, p2, p3],
        rows: [r0, r1, r2, r3],
        total,
        adjusted,
    } = a;
    let Slot {
        place: p0,
        row: r0,
        total,
        adjusted,
    } = shift(f, e, p0, r0, total, adjusted);
    let Slot {
        place: p1,
        row: r1,
        total,
        adjusted,
    } = shift(f, e, p1, r1, total, adjusted);
    if w == 2 {
        return At {
            places: [p0, p1, p2, p3],
            rows: [r0, r1, r2, r3],
            total,
            adjusted,
        };
    }
    let Slot {
        place: p2,
        row: r2,
        total,
        adjusted,
    } = shift(f, e, p2, r2, total, adjusted);
    At {
        places: [p0, p1, p2, p3],
        rows: [r0, r1, r2, r3],
        total,
        adjusted,
    }
}

// How many slots change at each turn within a round.
#[inline(always)]
fn movers_of(st: &[u16]) -> u32
    requires { length st.now ≡ 48 }
    ensures { result ≡ movers st.now }
{
    if st[2] == 0 {
        return 2;
    }
    3
}

// The least of cap and the lanes.
#[inline(always)]
fn least_lane(m: [u16; 16], cap: u16) -> u16
    ensures { result ≡ least_of (lane m) cap 16 }
{
    let mut r = cap;
    for x in 0..16 {
        r = lanes::less_of(r, m[x]);
    }
    r
}

// What a walk finds: the least total, and how many adjustments it made.
#[derive(Clone, Copy)]
pub struct Found {
    pub least: u16,
    pub adjusted: u32,
}

// All n turns, with the marginals or without, in rounds: the rows that stand still within a round are lowered once, to the least total of the round.
#[inline(always)]
fn walk_any<const SOFT: bool>(
    f: &[u16],
    sl: &[u16],
    st: &[u16],
    n: usize,
    round: usize,
    g: &mut [u16],
    cap: u16,
) -> Found
    requires slots { Slots n f.now sl.now st.now × Rounds n round st.now }
    requires small_cap { cap < limit }
    requires blank { Blank SOFT cap f.now g.old }
    ensures least_value { result.least ≡ least_total cap f.now sl.now st.now n }
    ensures adjusted_value { result.adjusted ≡ changes sl.now st.now (n - 1) }
    ensures marginals { SOFT ≡ true → Marginals n cap f.now sl.now st.now g.new }
    ensures g_len_unchanged { length g.new ≡ length g.old }
{
    let w = movers_of(st);
    let mut a = first(f, sl);
    let mut m = [cap; 16];
    for r in 0..n / round {
        let k = r * round;
        // a call's result that holds an array goes through a variable of its own, here and below: else no proof is generated
        let b = at_turn(f, st, k, a);
        a = b;
        let t = a.total;
        lower_first::<SOFT>(g, a.places, t, w);
        let mut l = t;
        for i in k + 1..k + round {
            let b = turn(f, st, i, a, w);
            a = b;
            let t = a.total;
            lower_first::<SOFT>(g, a.places, t, w);
            let d = lesser(l, t);
            l = d;
        }
        lower_rest::<SOFT>(g, a.places, l, w);
        let d = lesser(m, l);
        m = d;
    }
    Found {
        least: least_lane(m, cap),
        adjusted: a.adjusted,
    }
}

// All n turns: the least total and the adjustments, and in g, which is all cap before, the least with each place.
pub fn walk(
    f: &[u16],
    sl: &[u16],
    st: &[u16],
    n: usize,
    round: usize,
    g: &mut [u16],
    cap: u16,
) -> Found
    requires slots { Slots n f.now sl.now st.now × Rounds n round st.now }
    requires g_len { (length g.old ≡ length f.now) × (cap < 2 ^ 15) }
    requires all_cap { (p : ℕ) → p < length g.old → get_or g.old p 0 ≡ cap }
    ensures least_value { result.least ≡ least_total cap f.now sl.now st.now n }
    ensures adjusted_value { result.adjusted ≡ changes sl.now st.now (n - 1) }
    ensures marginals { Marginals n cap f.now sl.now st.now g.new }
    ensures g_len_unchanged { length g.new ≡ length g.old }
{
    walk_any::<true>(f, sl, st, n, round, g, cap)
}

// The same without them.
pub fn least_of(f: &[u16], sl: &[u16], st: &[u16], n: usize, round: usize, cap: u16) -> Found
    requires slots { Slots n f.now sl.now st.now × Rounds n round st.now }
    requires small_cap { cap < 2 ^ 15 }
    ensures least_value { result.least ≡ least_total cap f.now sl.now st.now n }
    ensures adjusted_value { result.adjusted ≡ changes sl.now st.now (n - 1) }
{
    walk_any::<false>(f, sl, st, n, round, &mut [], cap)
}
