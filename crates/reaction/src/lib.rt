// What an event does, by value: its reaction in words, and in module put the put thread's, whose parts are many.
// Document 01, "The eight events".
#![tactic(auto)]

ghost use Rattle.std.specs.Prelude.{◌≡◌};
ghost use Rattle.reaction.specs.Reaction.{asks_in, leaves_in, traffic_word, traffic_by};

use machine::Outcome;
use record::header::Header;
use record::process::Record;
use record::statuses::Statuses;

pub mod begun; // begun.rt: what the put thread works on
pub mod put; // put.rt: the put thread, code 7

// Which neighbour an event reaches: none, the left with requests for its link, or the right with the envelope. A put
// without the envelope always reaches the left, with no request too, since whether it asks can't be foreseen.
#[derive(Clone, Copy)]
pub enum Reach {
    Own,
    Left(Statuses),
    Right,
}

// What a request and a departure add to a word of counts (`turns::turns`).
pub const REQUESTS: u64 = 0x80;

pub const DEPARTURES: u64 = 0x100_0000_0000_0000;

impl Reach {
    // Internal: its traffic, in a word of counts. Two bits have (asks + 1) / 2 ones.
    pub fn traffic(self) -> u64
        ensures { result ≡ traffic_word (traffic_by (asks_in self) (leaves_in self)) }
    {
        match self {
            Reach::Own => 0,
            Reach::Left(asks) => (asks.bits + 1) / 2 * REQUESTS,
            Reach::Right => DEPARTURES,
        }
    }
}

// What an event does: to its own record and to the header, which neighbour it reaches, what it counts as started, and
// the outcome.
#[derive(Clone, Copy)]
pub struct Reaction {
    pub own: Record,
    pub header: Header,
    pub reach: Reach,
    pub started: u64,
    pub outcome: Outcome,
}
