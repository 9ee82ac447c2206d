// Runs the values on record of fields, codes, split, join, quantiser and receiver, and compares them: one line a topic, how many of its comparisons agree.
#![tactic(auto)]

mod codes;
mod fields;
mod joins;
mod received;
mod samples;
mod splits;

use std::io;

fn main(rt: HostRuntime) -> io::Result<()> {
    println!(rt; "fields: {}", fields::agree())?;
    println!(rt; "codes: {}", codes::agree())?;
    println!(rt; "split: {}", splits::agree())?;
    println!(rt; "join: {}", joins::agree())?;
    println!(rt; "quantiser: {}", samples::agree())?;
    println!(rt; "receiver: {}", received::agree())
}
