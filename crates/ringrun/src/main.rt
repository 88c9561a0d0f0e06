// ringrun: a tape run from the fresh ring. It reads N, home and up to 64 blocks from standard input, and writes the
// ledger's records as lines, the counts, and whether the ring is stopped; or the refusal. Document 01, "The tape", its
// last paragraph.
//
// What it writes is `report::report` of what it reads, which is proved; this program only reads and writes. One byte
// more than can be accepted is enough to know that there is too much, so no more is read. `main` has no contract:
// proved of it is that it stays within its buffers and ends. That it read one byte too few would be seen by the samples
// alone (`size-64-blocks-and-a-byte`), and so would text that it left out. A read or a write that fails ends it with
// the system's error.
#![tactic(auto)]

ghost use Rattle.std.specs.Prelude.{◌≤◌, length, IfOk};

use report::{MOST_INPUT, MOST_TEXT, report};
use std::io;
use std::io::Read;

// Reads until the input ends or the buffer is full, and returns how many bytes it put at the buffer's start. A loop of
// our own: std's `read_exact` fails at a shorter input, `read_to_end` needs a heap, and no clause of `io::copy` says
// that what it counts lies within the buffer.
fn read_full(rt: &HostRuntime, input: &mut [u8]) -> io::Result<usize>
    ensures { IfOk result (λ n. n ≤ length input.new) }
{
    let mut count = 0;
    while count < input.len() {
        let more = rt.stdin().read(&mut input[count..])?;
        if more == 0 {
            break;
        }
        count += more;
    }
    Ok(count)
}

// An output of MOST_TEXT bytes is never too short, so the else is never reached.
fn main(rt: HostRuntime) -> io::Result<()> {
    let mut input = [0; MOST_INPUT + 1];
    let count = read_full(&rt, &mut input)?;
    let mut output = [0; MOST_TEXT];
    let answer = report(&input[..count], &mut output);
    let Ok(end) = answer else {
        return Ok(());
    };
    rt.write_all(&output[..end])
}
