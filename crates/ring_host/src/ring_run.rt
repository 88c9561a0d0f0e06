// The run call of the suite's host. Document 01, "The tape", the sentences on the suite's host.
ghost use Rattle.std.specs.Prelude.{◌≡◌};
ghost use Rattle.machine.specs.Answers.{run_answer, run_image, run_ledger};
ghost use Rattle.machine.specs.Host.{returned, result_after, lent_with};

use result_slice::{ROOM, reply, short};
use run::{inputs_verdict, run};

// The run call: the eight counts are told, then the traffic.
pub fn ring_run(image: &mut [u8], tape: &[u8], ledger: &mut [u8], res: &mut [u8]) -> u64
    ensures number { result
        ≡ returned (run_answer image.old tape.now ledger.old) res.old }
    ensures buffer { image.new
        ≡ lent_with res.old image.old
        (run_image image.old tape.now ledger.old) }
    ensures records { ledger.new
        ≡ lent_with res.old ledger.old
        (run_ledger image.old tape.now ledger.old) }
    ensures told { res.new
        ≡ result_after (run_answer image.old tape.now ledger.old)
        res.old }
{
    let Some(told) = res.first_chunk_mut::<ROOM>() else {
        return short(inputs_verdict(image, tape));
    };
    reply(told, run(image, tape, ledger))
}
