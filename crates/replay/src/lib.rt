// The first events of an accepted tape, performed on an accepted image, with their records in the ledger: a tape's
// replay, whole where all of them are asked for. And whether a ledger has room for the records: known at once where it
// has room for a record an event, else counted on a spare copy of the image, so that nothing lent has changed when a
// run is refused. Document 01, "The run".
#![tactic(auto)]

ghost use Rattle.std.specs.Prelude.{◌≡◌, leb, length};
ghost use Rattle.machine.specs.Image.{state_in, image_with};
ghost use Rattle.machine.specs.Run.{no_counts, counts_from, after};
ghost use Rattle.replay.specs.Played.{values_of};
ghost use Rattle.replay.specs.Playable.{Playable, Tells, Recorded, first_events, first_records};

use machine::{Counts, Traffic};
use numbers::Values;
use span::put;
use turns::{added_to, carried_to, turns};

// What the events came to: their counts, and their traffic.
#[derive(Clone, Copy, Debug, PartialEq, Eq)]
pub struct Played {
    pub counts: Counts,
    pub traffic: Traffic,
}

impl Values for Played {
    ghost values = { values_of };

    fn words(self) -> [u64; 10] {
        [
            self.counts.puts,
            self.counts.gets,
            self.counts.fills,
            self.counts.takes,
            self.counts.sent,
            self.counts.got,
            self.counts.idle,
            self.counts.records,
            self.traffic.requests,
            self.traffic.departures,
        ]
    }
}

// How many events a block has, but the last.
const EVENTS: usize = 63;

// Internal: the first `events` events of the tape, one after the other; a run asks for all, and breaks its promise
// where it asks for fewer, which must-fail edits of it do. The ledger gets their records where it has room for all.
// Block by block: its events, 63 or what is left, stand behind its head of 8 bytes.
pub fn replay(image: &mut [u8], tape: &[u8], events: usize, ledger: &mut [u8]) -> Played
    requires { Playable image.old tape.now events }
    ensures answer { Tells (state_in image.old) (first_events tape.now events) result }
    ensures buffer { image.new ≡ image_with image.old
        (after (state_in image.old) (first_events tape.now events)) }
    ensures records { Recorded (first_records image.old tape.now events)
        ledger.old ledger.new }
{
    let mut counts = Counts::default();
    let mut traffic = Traffic::default();
    let (blocks, _) = tape.as_chunks::<512>();
    let blocks = &blocks[..events.div_ceil(EVENTS)];
    for (b, block) in blocks.iter().enumerate() {
        let first = EVENTS * b;
        let used = (events - first).min(EVENTS);
        let word = turns(
            image,
            &block[8..8 + 8 * used],
            first,
            ledger,
            12 * counts.records as usize,
        );
        counts = added_to(counts, word);
        traffic = carried_to(traffic, word);
    }
    Played {
        counts: counts,
        traffic: traffic,
    }
}

// How many records the first `events` events of the tape have, performed on a copy of the image, with a ledger that
// takes none.
#[tactic(auto, using(machine::proofs::Laws::Refusals::image_fine))]
fn measure(image: &[u8], tape: &[u8], events: usize) -> u64
    requires { Playable image.now tape.now events }
    ensures { result
        ≡ (counts_from no_counts (state_in image.now) (first_events tape.now events)).records }
{
    let mut spare = [0u8; 528];
    let mut none = [0u8; 1];
    let bytes = 16 + 8 * usize::from(image[0]);
    put(&mut spare, 0, &image[..bytes]);
    let played = replay(&mut spare, tape, events, &mut none);
    played.counts.records
}

// Internal: whether a ledger of so many bytes has room for the records of the first `events` events, 12 bytes each.
#[tactic(auto, using(crate::proofs::Room::room_at_once))]
pub fn has_room(image: &[u8], tape: &[u8], events: usize, bytes: usize) -> bool
    requires { Playable image.now tape.now events }
    ensures { result ≡ leb (length (first_records image.now tape.now events)) bytes }
{
    let room = bytes / 12;
    if events <= room {
        return true;
    }
    let records = measure(image, tape, events);
    records <= room as u64
}
