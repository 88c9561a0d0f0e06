// The writer call of a host, in the manner of the suite's. Document 01, "The tape".
ghost use Rattle.std.specs.Prelude.{◌≡◌};
ghost use Rattle.machine.specs.Answers.{write_answer, write_output};
ghost use Rattle.machine.specs.Host.{returned, result_after, lent_with};

use result_slice::{ROOM, reply, short};
use tape::{write, write_verdict};

// The writer call: how many bytes it filled is told.
pub fn ring_write(n: u64, list: &[u8], output: &mut [u8], res: &mut [u8]) -> u64
    ensures number { result
        ≡ returned (write_answer n list.now output.old) res.old }
    ensures buffer { output.new
        ≡ lent_with res.old output.old
        (write_output n list.now output.old) }
    ensures told { res.new
        ≡ result_after (write_answer n list.now output.old) res.old }
{
    let Some(told) = res.first_chunk_mut::<ROOM>() else {
        return short(write_verdict(n, list));
    };
    reply(told, write(n, list, output))
}
