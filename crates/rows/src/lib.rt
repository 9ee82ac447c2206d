// Rows of four numbers, one to a layer, of 32 bits (keys) and of 16 (costs): one vector register holds a row. Its functions are for the coset search
// and the soft pass; their promises cite specs/Rows.antt and the crate lanes.
#![tactic(auto)]

ghost use Rattle.std.specs.Prelude.{◌≡◌, List, ℕ, ◌+◌, ◌*◌, ◌^◌, ◌<◌, ◌≤◌, min, map, length};
ghost use Rattle.std.proofs.lemmas.List.{map-id};
ghost use Rattle.std.proofs.Common.{sym};
ghost use Rattle.lanes.specs.Lanes as L;
ghost use Rattle.lanes.specs.Lanes.{row, put};
ghost use Rattle.rows.specs.Rows.{sum, less, limit, Small, Sums};

// A cost or a key: a number that is added to others and compared with them. `numbers` are those of a row or a table, and no sum reaches `limit`.
pub trait Cost: Copy {
    ghost number: { Self → ℕ };

    ghost numbers: { List Self → List ℕ };

    ghost limit: { ℕ };

    // The sum of two.
    fn plus(self, other: Self) -> Self
        requires { number self + number other < limit }
        ensures { number result ≡ number self + number other };

    // The less of two.
    fn least(self, other: Self) -> Self
        ensures { number result ≡ min (number self) (number other) };

    ghost one_by_one: { (t : List Self) → numbers t ≡ map number t };
}

impl Cost for u16 {
    ghost number = { λ x. x };

    ghost numbers = { λ t. t };

    ghost limit = { L.limit };

    ghost one_by_one = { λ t. sym (map-id t) };

    fn plus(self, other: u16) -> u16 {
        self + other
    }

    fn least(self, other: u16) -> u16 {
        lanes::less_of(self, other)
    }
}

impl Cost for u32 {
    ghost number = { λ x. x };

    ghost numbers = { λ t. t };

    ghost limit = { limit };

    ghost one_by_one = { λ t. sym (map-id t) };

    fn plus(self, other: u32) -> u32 {
        self + other
    }

    fn least(self, other: u32) -> u32 {
        if self <= other { self } else { other }
    }
}

// Row s of a slice of rows of 16-bit numbers, in 32 bits.
#[tactic(auto, unfolding(lanes::specs::Lanes::row))]
pub fn widen(t: &[u16], s: usize) -> [u32; 4]
    requires { s * 4 + 4 ≤ length t.now }
    ensures { result ≡ row t.now s }
{
    lanes::load(t, s).map(u32::from)
}

// Row s of a slice of rows, in 16 bits.
#[tactic(auto, using(crate::proofs::Rows::cost_fits), unfolding(lanes::specs::Lanes::row))]
pub fn narrow(t: &[u32], s: usize) -> [u16; 4]
    requires s_in_bounds { s * 4 + 4 ≤ length t.now }
    requires small { Small (2 ^ 16) (row t.now s) }
    ensures { result ≡ row t.now s }
{
    let k = s * 4;
    [
        t[k + 0] as u16,
        t[k + 1] as u16,
        t[k + 2] as u16,
        t[k + 3] as u16,
    ]
}

// Lane by lane, the sum.
pub fn plus<C: Cost>(a: [C; 4], b: [C; 4]) -> [C; 4]
    requires { Sums C.limit (C.numbers a) (C.numbers b) }
    ensures { C.numbers result ≡ sum (C.numbers a) (C.numbers b) }
{
    [
        a[0].plus(b[0]),
        a[1].plus(b[1]),
        a[2].plus(b[2]),
        a[3].plus(b[3]),
    ]
}

// Lane by lane, the less.
pub fn least<C: Cost>(a: [C; 4], b: [C; 4]) -> [C; 4]
    ensures { C.numbers result ≡ less (C.numbers a) (C.numbers b) }
{
    [
        a[0].least(b[0]),
        a[1].least(b[1]),
        a[2].least(b[2]),
        a[3].least(b[3]),
    ]
}

// Row s written anew, the less of two rows. A row made before it is written would be carried as one number of 64 bits, put together lane by lane.
pub fn store_least<C: Cost>(t: &mut [C], s: usize, a: [C; 4], b: [C; 4])
    requires { s * 4 + 4 ≤ length t.old }
    ensures { C.numbers t.new ≡ put (C.numbers t.old) s (less (C.numbers a) (C.numbers b)) }
{
    let k = s * 4;
    t[k + 0] = a[0].least(b[0]);
    t[k + 1] = a[1].least(b[1]);
    t[k + 2] = a[2].least(b[2]);
    t[k + 3] = a[3].least(b[3]);
}
