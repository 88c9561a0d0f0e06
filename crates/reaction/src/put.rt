// What the put thread does with its news: ask and pass, mark, clear, forward, and the decision by stage. Mark and clear
// hand back what they were given, changed; the others make the reaction of it. Document 01, "The eight events", code 7.
ghost use Rattle.std.specs.Prelude.{◌≡◌, ◌+◌, ◌<◌};
ghost use Rattle.machine.specs.Events as rule;
ghost use Rattle.record.specs.Words.{stage_of};
ghost use Rattle.reaction.specs.Reaction.{asking, so_far, Fits, Makes};

use super::begun::{Begun, Counted};
use super::{Reach, Reaction};
use machine::Outcome;
use record::process;
use record::statuses::Statuses;

// Ask the left for what is wished, and pass on what the right has asked for, unless asked already.
fn pass(wish: Statuses, step: Begun) -> Reaction
    ensures { Makes (λ x. rule.pass (asking wish.bits x)) (so_far step) result }
{
    let own = step.own;
    let wanted = own.asked() | wish;
    Reaction {
        own: own.with(wanted.bits * process::ITSELF),
        reach: Reach::Left(wanted & !own.itself()),
        ..step.so_far()
    }
}

// Mark for the status that the envelope hasn't, unless that is marked.
fn mark(step: Counted) -> Begun
    ensures { Makes rule.mark (so_far step.begun) (so_far result) }
{
    let begun = step.begun;
    let new = Statuses::only(!begun.header.is_full()) & !begun.own.marks();
    Begun {
        own: begun.own.with(new.bits * process::MARK),
        header: begun.header.with_more(new),
        started: begun.started,
        outcome: begun.outcome,
    }
}

// Clear for full or for empty: the mark goes, and its marker off.
fn clear(full: bool, step: Counted) -> Begun
    ensures { Makes (rule.clear full) (so_far step.begun) (so_far result) }
{
    let begun = step.begun;
    let one = Statuses::only(full);
    Begun {
        own: begun.own.without(one.bits * process::MARK),
        header: begun
            .header
            .with_fewer(begun.own.marks() & one)
            .without_markers(one),
        started: begun.started,
        outcome: begun.outcome,
    }
}

// What an envelope that leaves takes along: have and all four asked bits.
const TAKEN_ALONG: u64 = 0xF_0100;

// Forward: the markers of the right's requests first; then the envelope leaves if its status is wanted.
fn forward(step: Begun) -> Reaction
    ensures { Makes rule.forward (so_far step) result }
{
    let own = step.own;
    let header = step.header.with_markers(own.asked());
    if header.is_wanted() {
        return Reaction {
            own: own.without(TAKEN_ALONG),
            header,
            reach: Reach::Right,
            ..step.so_far()
        };
    }
    Reaction {
        header,
        ..step.so_far()
    }
}

// Stages 0, 1 and 6.
fn relay(step: Begun) -> Reaction
    ensures { Makes rule.relay (so_far step) result }
{
    if step.own.has_envelope() {
        forward(step)
    } else {
        pass(Statuses::none(), step)
    }
}

// Stages 2 and 7, waiting for the envelope of one status: with it to the next stage.
fn wait(full: bool, step: Counted) -> Reaction
    requires { stage_of step.begun.own.word < 255 }
    ensures { Makes (rule.wait full (stage_of step.begun.own.word + 1)) (so_far step.begun) result }
{
    let own = step.begun.own;
    let header = step.begun.header;
    if !own.has_envelope() {
        return pass(Statuses::only(full), step.begun);
    }
    if header.is_full() == full {
        return Reaction {
            own: own.with_stage(own.stage() + 1),
            ..step.begun.so_far()
        };
    }
    forward(mark(step))
}

// The put or the get is over. A neighbour may be reached by then, so that what has begun is no type for it.
#[tactic(auto, using(crate::proofs::Stages::ends_made))]
fn ends(outcome: Outcome, r: Reaction) -> Reaction
    requires { Fits r }
    ensures { Makes (rule.ends outcome) r result }
{
    Reaction {
        own: r.own.with_stage(0),
        outcome,
        ..r
    }
}

// Stage 5, after its forward: the put is over if the envelope left.
#[tactic(auto, using(crate::proofs::Stages::end_left, crate::proofs::Stages::end_stayed))]
fn end_put(r: Reaction) -> Reaction
    requires { Fits r }
    ensures { Makes rule.end_put r result }
{
    let Reach::Right = r.reach else {
        return r;
    };
    ends(Outcome::Sent, r)
}

// Internal: the put step, by the stage that it finds, with the envelope or without it. Stages 3, 4, 8 and 9 do no more,
// and no sound image has one above 10.
pub fn put_at(step: Counted) -> Reaction
    ensures { Makes (rule.put_at (stage_of step.begun.own.word)) (so_far step.begun) result }
{
    let stage = step.begun.own.stage();
    match stage {
        0 | 1 | 6 => relay(step.begun),
        2 | 7 => wait(stage == 7, step),
        5 => end_put(forward(clear(false, step))),
        10 => ends(Outcome::Got, forward(clear(true, step))),
        3..=4 | 8..=9 => step.begun.so_far(),
        _ => step.begun.so_far(),
    }
}
