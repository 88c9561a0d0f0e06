// An event performed on an image: its reaction, written into its own record, the header and the record of the neighbour
// that it reaches. Document 01, "The eight events".
#![tactic(auto)]

ghost use Rattle.std.specs.Prelude.{◌≡◌, ◌+◌, ◌*◌, ◌≤◌, ◌<◌, length};
ghost use Rattle.std.specs.Int.Bits.{bit_or};
ghost use Rattle.machine.specs.Bytes.{number, bytes as bytes_of, splice};
ghost use Rattle.machine.specs.Ring.{record_at};
ghost use Rattle.machine.specs.Image.{state_in, image_with};
ghost use Rattle.machine.specs.Events as rule;
ghost use Rattle.event.specs.Parsed.{ruled};
ghost use Rattle.place.specs.Performed.{Placeable, placed, Performable, Performed};

use event::Event;
use image::Ring;
use machine::Outcome;
use reaction::{Reach, Reaction};
use record::header::Header;
use record::process::Record;

// What a performed event came to: its outcome, and what it adds to a word of counts beside it, by its start and its
// traffic.
#[derive(Clone, Copy)]
pub struct Done {
    pub outcome: Outcome,
    pub counted: u64,
}

// What an event does at process i, written: its own record and the header, then the neighbour's record as these left
// it. The ring is the one read before the writes: read from the header that is written, runs were 5 % slower.
#[tactic(auto, using(crate::proofs::Written::when_placeable))]
fn place(image: &mut [u8], ring: Ring, i: usize, r: Reaction)
    requires { Placeable image.old ring.size i r }
    ensures { image.new ≡ image_with image.old (placed image.old i r) }
{
    let reach = r.reach;
    let to_left = ring.left(i);
    let to_right = ring.right(i);
    r.own.put(image, i);
    r.header.put(image);
    match reach {
        Reach::Own => {}
        Reach::Left(asks) => Record::at(image, to_left)
            .requested(asks)
            .put(image, to_left),
        Reach::Right => Record::at(image, to_right).arrived().put(image, to_right),
    }
}

// Internal: an event, performed on an image that is known to be sound. One that isn't possible changes no byte. It has
// one call site, in `turns::turns`, and so have the test, `apply` and `put_at` beneath it: a large function is sure to
// be inlined only where it has one. The outcome is taken out before the writes: read after them, a guided event took 3
// instructions more.
#[tactic(auto, using(crate::proofs::Ways::counted_fits, machine::proofs::Laws::Refusals::image_fine))]
pub fn perform(image: &mut [u8], event: Event) -> Done
    requires { Performable image.old event }
    ensures answer { Performed image.old event result }
    ensures buffer { image.new
        ≡ image_with image.old (rule.apply (state_in image.old) (ruled event)) }
{
    let i = event.process;
    let own = Record::at(image, i);
    if !event.is_possible(own) {
        return Done {
            outcome: Outcome::Idle,
            counted: 0,
        };
    }
    let header = Header::of(image);
    let r = event.apply(header, own);
    let outcome = r.outcome;
    let counted = r.started + r.reach.traffic();
    let ring = Ring {
        size: header.size(),
    };
    place(image, ring, i, r);
    Done { outcome, counted }
}
