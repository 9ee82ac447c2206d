// The program `listing` again, run on more bytes than it reads: a sheet of 200 questions with six bytes behind it.
#![tactic(auto)]

use std::io;

fn main(rt: HostRuntime) -> io::Result<()> {
    console::list_from(&rt, &mut rt.stdin())
}
