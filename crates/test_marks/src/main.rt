// Runs the values on record of decoder, marker, sheets and practice sheets, and compares them: one line a topic, how many of its comparisons agree.
#![tactic(auto)]

mod decodings;
mod drills;
mod marks;
mod paper;
mod sheets;

use std::io;

fn main(rt: HostRuntime) -> io::Result<()> {
    println!(rt; "decoder: {}", decodings::agree())?;
    println!(rt; "marker: {}", marks::agree())?;
    println!(rt; "sheets: {}", sheets::agree())?;
    println!(rt; "practice sheets: {}", drills::agree())
}
