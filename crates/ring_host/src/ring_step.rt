// The step call of the suite's host. Document 01, "The tape", the sentences on the suite's host.
ghost use Rattle.std.specs.Prelude.{◌≡◌};
ghost use Rattle.machine.specs.Answers.{step_answer, step_image};
ghost use Rattle.machine.specs.Host.{returned, result_after, lent_with};

use result_slice::{ROOM, reply, short};
use step::{step, step_verdict};

// The step call: the outcome's number and message are told, then the traffic.
pub fn ring_step(image: &mut [u8], event: &[u8], res: &mut [u8]) -> u64
    ensures number { result
        ≡ returned (step_answer image.old event.now) res.old }
    ensures buffer { image.new
        ≡ lent_with res.old image.old (step_image image.old event.now) }
    ensures told { res.new
        ≡ result_after (step_answer image.old event.now) res.old }
{
    let Some(told) = res.first_chunk_mut::<ROOM>() else {
        return short(step_verdict(image, event));
    };
    reply(told, step(image, event))
}
