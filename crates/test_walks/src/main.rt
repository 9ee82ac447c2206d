// Prints for each code that is accepted, by its m and r, how many turns its walk has and how many adjustments it answers.
#![tactic(auto)]

ghost use Rattle.std.specs.Prelude.{◌≡◌, ◌-◌, ◌*◌};
ghost use Rattle.tails.specs.Tails.{turns};
ghost use Rattle.walk.specs.Walk.{changes};
ghost use Rattle.spots.specs.Spots.{slots, all_steps, layers_a_step};

use code::{Choice, Shape};
use std::io;

fn main(rt: HostRuntime) -> io::Result<()> {
    for m in 3..5 {
        for r in 1..7 {
            let choice = Choice::Parameters { m, r };
            if let Ok(shape) = choice.shape() {
                report(&rt, shape)?;
            }
        }
    }
    Ok(())
}

// How many adjustments the walk of a code answers: at each turn but the first as many as layers change. What the places cost plays no part, and here they cost
// nothing.
fn adjusted(shape: Shape) -> u32
    ensures all_changes { result ≡ changes (slots shape.m shape.r) (all_steps shape.m shape.r) (turns shape.m shape.r - 1) }
    ensures as_many_a_step { result ≡ (turns shape.m shape.r - 1) * layers_a_step shape.m shape.r }
{
    let sl = spots::slots(shape.m, shape.r);
    let st = spots::steps(shape.m, shape.r);
    let n = spots::turns(shape.m, shape.r);
    let round = spots::round(shape.m, shape.r);
    let end = sl[4] as usize;
    let f = [0u16; 4096];
    walk::least_of(&f[..end], &sl, &st, n, round, 0).adjusted
}

fn report(rt: &impl Print, shape: Shape) -> io::Result<()> {
    let m = shape.m;
    let r = shape.r;
    let turns = spots::turns(m, r);
    let adjustments = adjusted(shape);
    println!(rt; "({m}, {r}): {turns} turns, {adjustments} adjustments")
}
