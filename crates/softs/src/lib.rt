// Soft outputs, from the least costs with a 0 and with a 1 at each bit: written position by position, in sixteen signed bits. It knows no code. Its
// functions are for the decoder; their promises cite specs/Softs.antt.
#![tactic(auto)]

ghost use Rattle.std.specs.Prelude.{◌≡◌, ◌*◌, ◌^◌, ◌<◌, pos, ◌-ℤ◌};
ghost use Rattle.softs.specs.Softs.{SoftsWithin, Softened, SoftWithin, SoftWritten};

// a less b.
pub fn minus(a: u32, b: u32) -> i32
    requires { (a < 2 ^ 31) × (b < 2 ^ 31) }
    ensures { result ≡ pos a -ℤ pos b }
{
    (a as i32) - (b as i32)
}

// A soft output: twice the least cost with a 1 less twice that with a 0.
fn soft_from(zero: u16, one: u16) -> i16
    requires { (zero < 2 ^ 14) × (one < 2 ^ 14) }
    ensures { result ≡ pos (2 * one) -ℤ pos (2 * zero) }
{
    minus(2 * (one as u32), 2 * (zero as u32)) as i16
}

// One position's soft outputs.
#[tactic(auto, using(crate::proofs::Writing::at_least))]
fn soft_row(m: u32, z: [u16; 4], o: [u16; 4], at: usize, soft: &mut [i16])
    requires { SoftWithin m at z o soft.old }
    ensures { SoftWritten m at z o soft.old soft.new }
{
    soft[at + 0] = soft_from(z[0], o[0]);
    soft[at + 1] = soft_from(z[1], o[1]);
    soft[at + 2] = soft_from(z[2], o[2]);
    if m == 4 {
        soft[at + 3] = soft_from(z[3], o[3]);
    }
}

// All soft outputs.
pub fn soft_rows(m: u32, n: usize, zero: &[u16], one: &[u16], soft: &mut [i16])
    requires { SoftsWithin m n zero.now one.now soft.old }
    ensures { Softened m zero.now one.now n soft.old soft.new }
{
    let w = m as usize;
    for i in 0..n {
        soft_row(m, lanes::load(zero, i), lanes::load(one, i), i * w, soft);
    }
}
