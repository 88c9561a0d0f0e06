// The fresh ring call of a host, in the manner of the suite's. Document 01, "The tape".
ghost use Rattle.std.specs.Prelude.{◌≡◌};
ghost use Rattle.machine.specs.Answers.{fresh_answer, fresh_image};
ghost use Rattle.machine.specs.Host.{returned, result_after, lent_with};

use image::Ring;
use result_slice::{ROOM, reply, short};

// The fresh ring call: there are no values to tell.
pub fn ring_fresh(n: u64, home: u64, image: &mut [u8], res: &mut [u8]) -> u64
    ensures number { result ≡ returned (fresh_answer n home image.old) res.old }
    ensures buffer { image.new
        ≡ lent_with res.old image.old (fresh_image n home image.old) }
    ensures told { res.new
        ≡ result_after (fresh_answer n home image.old) res.old }
{
    let Some(told) = res.first_chunk_mut::<ROOM>() else {
        return short(Ring::fresh_verdict(n, home, image));
    };
    reply(told, Ring::fresh(n, home, image))
}
