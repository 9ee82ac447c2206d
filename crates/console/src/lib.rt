// Listing a sheet on standard output: what the programs that list share. What they print is what `report::list` leaves; that all
// of it is written is not proved.
#![tactic(auto)]

ghost use Rattle.std.specs.Prelude.{◌≤◌, length};

use std::io;
use std::io::Read;

// Lists the sheet that a reader gives. It reads at most 19,208 bytes, four more than the longest sheet has, and judges
// those alone.
pub fn list_from(rt: &impl Print, from: &mut impl Read) -> io::Result<()> {
    let mut sheet = [0u8; 19208];
    let n = read_full(from, &mut sheet);
    let mut out = [0u8; report::LONG];
    let long = report::list(&sheet[..n], &mut out).unwrap_or(0);
    rt.write_all(&out[..long])
}

// Reads until a buffer is full, the input ends or a read fails: how many bytes it put at the start of the buffer.
// A loop over `read`, since `read_exact` tells no count where the input ends, and `read_to_end` needs the heap.
fn read_full(from: &mut impl Read, to: &mut [u8]) -> usize
    ensures { result ≤ length to.new }
{
    let mut done = 0;
    while done < to.len() {
        match from.read(&mut to[done..]) {
            Ok(0) | Err(_) => break,
            Ok(n) => done += n,
        }
    }
    done
}
