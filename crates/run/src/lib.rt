// The run call: an image, a tape and a ledger buffer. Everything is tested before a lent byte changes; then every event
// is performed. Document 01, "The run".
#![tactic(auto)]

ghost use Rattle.std.specs.Prelude.{◌≡◌};
ghost use Rattle.machine.specs.Image.{size_in};
ghost use Rattle.machine.specs.Refusals.{codes, image_verdict, tape_verdict, or_else};
ghost use Rattle.machine.specs.Answers.{in_numbers, run_answer, run_image, run_ledger};
ghost use Rattle.replay.specs.Played.{values_of};

use event::Event;
use machine::{Answer, Refusal, Verdict};
use replay::{Played, has_room, replay};
use sound::image_verdict;
use tape_test::{event_count, tape_verdict};

// Internal: the verdict of a run's inputs: 3 or 4 for the image, 6 for the tape's length, block by block 7, 8, 5 and 9.
// The ledger's stands apart, since it has to be measured. It mirrors its own rule (`step::step_verdict`).
#[tactic(auto, using(machine::proofs::Laws::Refusals::image_fine))]
pub fn inputs_verdict(image: &[u8], tape: &[u8]) -> Verdict
    ensures { result ≡ or_else (image_verdict image.now)
        (tape_verdict codes (size_in image.now) tape.now) }
{
    let verdict = image_verdict(image);
    let Ok(()) = verdict else {
        return verdict;
    };
    tape_verdict(tape, usize::from(image[0]), Event::CODES)
}

// The run call: the eight counts and the traffic, the image after every event, and the records at the start of the
// ledger, whose further bytes stay; or the refusal of its inputs' verdict, or 10 for a ledger that is too short.
#[tactic(auto, using(crate::proofs::Ways::when_accepted))]
pub fn run(image: &mut [u8], tape: &[u8], ledger: &mut [u8]) -> Answer<Played>
    ensures answer { in_numbers values_of result
        ≡ run_answer image.old tape.now ledger.old }
    ensures buffer { image.new
        ≡ run_image image.old tape.now ledger.old }
    ensures records { ledger.new
        ≡ run_ledger image.old tape.now ledger.old }
{
    let verdict = inputs_verdict(image, tape);
    let Ok(()) = verdict else {
        return Err(verdict.unwrap_err());
    };
    let events = event_count(tape);
    if !has_room(image, tape, events, ledger.len()) {
        return Err(Refusal::Output);
    }
    Ok(replay(image, tape, events, ledger))
}
