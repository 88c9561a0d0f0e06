// The reader call of a host, in the manner of the suite's. Document 01, "The tape".
ghost use Rattle.std.specs.Prelude.{◌≡◌};
ghost use Rattle.machine.specs.Answers.{read_answer, read_output};
ghost use Rattle.machine.specs.Host.{returned, result_after, lent_with};

use result_slice::{ROOM, reply, short};
use tape::{read, read_verdict};

// The reader call: how many bytes it filled is told.
pub fn ring_read(n: u64, tape: &[u8], output: &mut [u8], res: &mut [u8]) -> u64
    ensures number { result
        ≡ returned (read_answer n tape.now output.old) res.old }
    ensures buffer { output.new
        ≡ lent_with res.old output.old
        (read_output n tape.now output.old) }
    ensures told { res.new
        ≡ result_after (read_answer n tape.now output.old) res.old }
{
    let Some(told) = res.first_chunk_mut::<ROOM>() else {
        return short(read_verdict(n, tape));
    };
    reply(told, read(n, tape, output))
}
