// Rows of four numbers in a slice, one to a layer, and two rows side by side: eight numbers, which the vector instructions treat at once.
// Its functions are for the coset search, the soft pass and the walk; their promises cite specs/Lanes.antt.
#![tactic(auto)]

ghost use Rattle.std.specs.Prelude.{◌≡◌, ◌+◌, ◌*◌, ◌≤◌, min, length};
ghost use Rattle.lanes.specs.Lanes.{row, rows, twofold, sum, put, put_two, Sums};

// The less of two costs. With `min` of std, tried here, the compiler does not find the minimum that the vector instructions have.
pub fn less_of(a: u16, b: u16) -> u16
    ensures { result ≡ min a b }
{
    if a <= b { a } else { b }
}

// Row s of a slice of rows.
#[tactic(auto, unfolding(crate::specs::Lanes::row))]
pub fn load<T: Copy>(t: &[T], s: usize) -> [T; 4]
    requires { s * 4 + 4 ≤ length t.now }
    ensures { result ≡ row t.now s }
{
    let k = s * 4;
    [t[k + 0], t[k + 1], t[k + 2], t[k + 3]]
}

// Row s written anew.
#[tactic(auto, using(crate::proofs::Rows::put_is))]
pub fn store<T: Copy>(t: &mut [T], s: usize, r: [T; 4])
    requires { s * 4 + 4 ≤ length t.old }
    ensures { t.new ≡ put t.old s r }
{
    let k = s * 4;
    t[k + 0] = r[0];
    t[k + 1] = r[1];
    t[k + 2] = r[2];
    t[k + 3] = r[3];
}

// Rows s and u side by side.
#[tactic(auto, unfolding(crate::specs::Lanes::rows))]
pub fn load_two(t: &[u16], s: usize, u: usize) -> [u16; 8]
    requires s_in_bounds { s * 4 + 4 ≤ length t.now }
    requires u_in_bounds { u * 4 + 4 ≤ length t.now }
    ensures { result ≡ rows t.now s u }
{
    let k = s * 4;
    let l = u * 4;
    [
        t[k + 0],
        t[k + 1],
        t[k + 2],
        t[k + 3],
        t[l + 0],
        t[l + 1],
        t[l + 2],
        t[l + 3],
    ]
}

// Rows s and s + 1 written anew.
pub fn store_two(t: &mut [u16], s: usize, r: [u16; 8])
    requires { s * 4 + 8 ≤ length t.old }
    ensures { t.new ≡ put_two t.old s r }
{
    let k = s * 4;
    let l = (s + 1) * 4;
    t[k + 0] = r[0];
    t[k + 1] = r[1];
    t[k + 2] = r[2];
    t[k + 3] = r[3];
    t[l + 0] = r[4];
    t[l + 1] = r[5];
    t[l + 2] = r[6];
    t[l + 3] = r[7];
}

// A row beside itself.
#[tactic(auto, unfolding(crate::specs::Lanes::twofold))]
pub fn twice(r: [u16; 4]) -> [u16; 8]
    ensures { result ≡ twofold r }
{
    [r[0], r[1], r[2], r[3], r[0], r[1], r[2], r[3]]
}

// Lane by lane, the sum.
#[tactic(auto, unfolding(crate::specs::Lanes::sum))]
pub fn plus(a: [u16; 8], b: [u16; 8]) -> [u16; 8]
    requires { Sums a b }
    ensures { result ≡ sum a b }
{
    [
        a[0] + b[0],
        a[1] + b[1],
        a[2] + b[2],
        a[3] + b[3],
        a[4] + b[4],
        a[5] + b[5],
        a[6] + b[6],
        a[7] + b[7],
    ]
}
