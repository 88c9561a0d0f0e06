// The load call of a host, in the manner of the suite's. Document 02, A.1.
ghost use Rattle.std.specs.Prelude.{◌≡◌};
ghost use Rattle.machine.specs.Load.{load_answer, load_output};
ghost use Rattle.machine.specs.Host.{returned, result_after, lent_with};

use load::{load, load_verdict};
use result_slice::{ROOM, reply, short};

// The load call: how many bytes it filled is told.
pub fn ring_load(n: u64, seed: u64, count: u64, output: &mut [u8], res: &mut [u8]) -> u64
    ensures number { result ≡ returned (load_answer n seed count output.old) res.old }
    ensures buffer { output.new
        ≡ lent_with res.old output.old (load_output n seed count output.old) }
    ensures told { res.new
        ≡ result_after (load_answer n seed count output.old) res.old }
{
    let Some(told) = res.first_chunk_mut::<ROOM>() else {
        return short(load_verdict(n, seed, count));
    };
    reply(told, load(n, seed, count, output))
}
