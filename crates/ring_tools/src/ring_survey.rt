// The survey call of a host, in the manner of the suite's. Document 02, A.3.
ghost use Rattle.std.specs.Prelude.{◌≡◌};
ghost use Rattle.machine.specs.Survey.{survey_answer};
ghost use Rattle.machine.specs.Host.{returned, result_after};

use result_slice::{ROOM, reply, short};
use sound::{front_verdict, survey};

// The survey call: the verdict's number and place, the flags and both sets are told.
pub fn ring_survey(image: &[u8], res: &mut [u8]) -> u64
    ensures number { result ≡ returned (survey_answer image.now) res.old }
    ensures told { res.new
        ≡ result_after (survey_answer image.now) res.old }
{
    let Some(told) = res.first_chunk_mut::<ROOM>() else {
        return short(front_verdict(image));
    };
    reply(told, survey(image))
}
