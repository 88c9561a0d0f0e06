// The step call: an image and one event. Document 01, "The eight events".
#![tactic(auto)]

ghost use Rattle.std.specs.Prelude.{◌≡◌, ◌%◌, ◌≤◌, length, get_or};
ghost use Rattle.machine.specs.Bytes.{number};
ghost use Rattle.machine.specs.Answers.{in_numbers, step_verdict, step_answer, step_image};
ghost use Rattle.step.specs.Step.{values_of, outcome_read};

use event::Event;
use little_endian::Word;
use machine::{Answer, Outcome, Traffic, Verdict};
use numbers::Values;
use sound::image_verdict;
use turns::{traffic_in, turns};

// What a step is done with: the event's outcome and its traffic.
#[derive(Clone, Copy, Debug, PartialEq, Eq)]
pub struct Stepped {
    pub outcome: Outcome,
    pub traffic: Traffic,
}

impl Values for Stepped {
    ghost values = { values_of };

    fn words(self) -> [u64; 10] {
        [
            u64::from(self.outcome.number()),
            u64::from(self.outcome.message()),
            self.traffic.requests,
            self.traffic.departures,
            0,
            0,
            0,
            0,
            0,
            0,
        ]
    }
}

// Internal: the step's verdict: 3 or 4 for the image, 5 for the event. It mirrors its own rule, as the verdict of every
// call does: which tests there are is all that these functions say.
#[tactic(auto, using(machine::proofs::Laws::Refusals::image_fine), unfolding(machine::specs::Answers::step_verdict))]
pub fn step_verdict(image: &[u8], event: &[u8]) -> Verdict
    ensures { result ≡ step_verdict image.now event.now }
{
    let verdict = image_verdict(image);
    let Ok(()) = verdict else {
        return verdict;
    };
    Event::verdict(event, usize::from(image[0]))
}

// The outcome of one event, from its word of counts and a ledger of zeros with room for its record: idle is counted,
// and where there is no record something moved. No `TryFrom` of a code: the message and the count are needed too, and
// no code fails.
fn outcome_in(word: u64, ledger: &[u8]) -> Outcome
    requires { 12 ≤ length ledger.now }
    ensures { result
        ≡ outcome_read (word % 128) (get_or ledger.now 5 0) (number ledger.now 8 4) }
{
    if word % 128 == 1 {
        return Outcome::Idle;
    }
    let message = u32::read_at(ledger, 8);
    match ledger[5] {
        2 => Outcome::Fill(message),
        3 => Outcome::Take(message),
        4 => Outcome::Sent,
        5 => Outcome::Got,
        _ => Outcome::Moved,
    }
}

// The step call: the event's outcome and its traffic, and the image as the event leaves it; or the refusal of its
// verdict.
pub fn step(image: &mut [u8], event: &[u8]) -> Answer<Stepped>
    ensures answer { in_numbers values_of result ≡ step_answer image.old event.now }
    ensures buffer { image.new ≡ step_image image.old event.now }
{
    let verdict = step_verdict(image, event);
    let Ok(()) = verdict else {
        return Err(verdict.unwrap_err());
    };
    // a run of one event
    let mut ledger = [0u8; 12];
    let word = turns(image, event, 0, &mut ledger, 0);
    Ok(Stepped {
        outcome: outcome_in(word, &ledger),
        traffic: traffic_in(word),
    })
}
