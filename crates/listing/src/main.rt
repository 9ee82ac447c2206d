// Lists the sheet on standard input.
#![tactic(auto)]

use std::io;

fn main(rt: HostRuntime) -> io::Result<()> {
    console::list_from(&rt, &mut rt.stdin())
}
