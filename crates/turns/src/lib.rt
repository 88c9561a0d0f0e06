// Events performed one after the other on an accepted image, with their records in the ledger: the one loop that a step
// and a run go through. Document 01, "The run"; document 02, A.4.
#![tactic(auto)]

ghost use Rattle.std.specs.Prelude.{◌≡◌, ◌^◌, ◌<◌};
ghost use Rattle.machine.specs.Image.{state_in};
ghost use Rattle.machine.specs.Tape.{events_in};
ghost use Rattle.machine.specs.Traffic.{together};
ghost use Rattle.ledger.specs.Bounds.{NoneAbove};
ghost use Rattle.turns.specs.Turns.{added, traffic_in, Turning, Tallied, Ran};

use event::Event;
use ledger::enter;
use machine::{Counts, Traffic};
use place::perform;

// A word of counts has nine parts of seven bits, so that sums count whatever comes of at most 63 events. An idle event
// adds 1 to part 0; a fill, a take, a sent or a got adds 1 to the part of its number, 2 to 5; a start goes to part 6 or
// 7 (`event::PUTS`, `GETS`), and traffic to parts 1 and 8 (`reaction::REQUESTS`, `DEPARTURES`).
const FILLS: u64 = 0x4000;

const TAKES: u64 = 0x20_0000;

const SENT: u64 = 0x1000_0000;

const GOT: u64 = 0x8_0000_0000;

// Internal: the counts of a word added to those of the events before; a record for each fill, take, sent and got. A
// function, and no `AddAssign`: `Counts` is another crate's, and the word is a number like any other.
pub fn added_to(counts: Counts, word: u64) -> Counts
    requires { NoneAbove 4294967295 counts }
    ensures { result ≡ added counts word }
{
    let fills = word / FILLS % 128;
    let takes = word / TAKES % 128;
    let sent = word / SENT % 128;
    let got = word / GOT % 128;
    Counts {
        puts: counts.puts + word / event::PUTS % 128,
        gets: counts.gets + word / event::GETS % 128,
        fills: counts.fills + fills,
        takes: counts.takes + takes,
        sent: counts.sent + sent,
        got: counts.got + got,
        idle: counts.idle + word % 128,
        records: counts.records + (fills + takes + sent + got),
    }
}

// Internal: the traffic of a word.
pub fn traffic_in(word: u64) -> Traffic
    ensures { result ≡ traffic_in word }
{
    Traffic {
        requests: word / reaction::REQUESTS % 128,
        departures: word / reaction::DEPARTURES,
    }
}

// Internal: the traffic of a word added to that of the events before.
pub fn carried_to(traffic: Traffic, word: u64) -> Traffic
    requires { (traffic.requests < 2 ^ 63) × (traffic.departures < 2 ^ 63) }
    ensures { result ≡ together traffic (traffic_in word) }
{
    let more = traffic_in(word);
    Traffic {
        requests: traffic.requests + more.requests,
        departures: traffic.departures + more.departures,
    }
}

// Internal: events of 8 bytes each, numbered from `first` on, with their records in the ledger from `from` on, where it
// has room for all. What they come to is a word of counts, and nothing beside it: to keep the last outcome for a step
// took 2 instructions of each event.
pub fn turns(image: &mut [u8], events: &[u8], first: usize, ledger: &mut [u8], from: usize) -> u64
    requires { Turning image.old events.now first from }
    ensures answer { Tallied (state_in image.old) (events_in events.now) result }
    ensures buffers { Ran first from image.old ledger.old (events_in events.now) image.new ledger.new }
{
    // by the outcome's number, which is the part that it counts in: a match would say so in six arms
    let mut counts: u64 = 0;
    let mut place = from;
    let (slots, _) = events.as_chunks::<8>();
    for (k, slot) in slots.iter().enumerate() {
        let event = Event::parse(slot);
        let done = perform(image, event);
        let outcome = done.outcome;
        let number = outcome.number();
        if number == 0 {
            counts += 1;
        } else {
            counts += done.counted;
            if 2 <= number {
                counts += 1u64 << (7 * number);
                enter(ledger, place, (first + k) as u32, event, outcome);
                place += 12;
            }
        }
    }
    counts
}
