// The stopped call: yes exactly when no process has an event of the codes 2 to 7 that would do anything. Document 01,
// "The eight events", its last paragraph.
#![tactic(auto)]

ghost use Rattle.std.specs.Prelude.{◌≡◌, ◌+◌, ◌*◌, ◌≤◌, length, true};
ghost use Rattle.machine.specs.Answers.{in_numbers, stopped_answer};
ghost use Rattle.machine.specs.Sound.{records_fit};
ghost use Rattle.numbers.specs.Values.{of_bool};
ghost use Rattle.stopped.specs.Stopped.{QuietAre};

use little_endian::Word;
use machine::Answer;
use sound::image_verdict;

// Whether nothing waits at the first n processes: no news, no envelope and no request on a link, and no stage that main
// or get ends. Of stages 0 to 10 those are 1, 3, 4, 6, 8 and 9, where 13 * stage has bit 2 or bit 5. The envelope
// doesn't matter.
fn are_quiet(image: &[u8], n: usize) -> bool
    requires { (n ≤ 64) × (16 + 8 * n ≤ length image.now) × (records_fit image.now n ≡ true) }
    ensures { QuietAre image.now n result }
{
    let mut any: u64 = 0;
    let mut stages: u64 = 0;
    let (records, _) = image[16..16 + 8 * n].as_chunks::<8>();
    for record in records {
        let word = u64::read_at(record, 0);
        any |= word;
        stages |= 13 * (word % 256) & 36;
    }
    (any & 0xC0_0600 == 0) & (stages == 0)
}

// The stopped call: whether the ring is stopped; or the refusal of the image's verdict.
#[tactic(auto, using(crate::proofs::Ways::before_walk))]
pub fn stopped(image: &[u8]) -> Answer<bool>
    ensures { in_numbers of_bool result ≡ stopped_answer image.now }
{
    let verdict = image_verdict(image);
    let Ok(()) = verdict else {
        return Err(verdict.unwrap_err());
    };
    Ok(are_quiet(image, usize::from(image[0])))
}
