// The stopped call of the suite's host. Document 01, "The tape", the sentences on the suite's host.
ghost use Rattle.std.specs.Prelude.{◌≡◌};
ghost use Rattle.machine.specs.Answers.{stopped_answer};
ghost use Rattle.machine.specs.Host.{returned, result_after};

use result_slice::{ROOM, reply, short};
use sound::image_verdict;
use stopped::stopped;

// The stopped call: 1 is told for yes, 0 for no.
pub fn ring_stopped(image: &[u8], res: &mut [u8]) -> u64
    ensures number { result ≡ returned (stopped_answer image.now) res.old }
    ensures told { res.new
        ≡ result_after (stopped_answer image.now) res.old }
{
    let Some(told) = res.first_chunk_mut::<ROOM>() else {
        return short(image_verdict(image));
    };
    reply(told, stopped(image))
}
