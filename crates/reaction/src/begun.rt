// What an event has come to once its own record is changed, before any neighbour is reached: what main's work and the
// put thread go on from. The facts that they lean on go with it. Document 01, "The eight events".
ghost use Rattle.record.specs.Words.{shown_process, shown_envelope, Tidy, TidyHeader};
ghost use Rattle.reaction.specs.Ready.{Ready};

use super::{Reach, Reaction};
use machine::Outcome;
use record::header::Header;
use record::process::Record;

// The own record and the header, in order, what counts as started, and the outcome so far.
#[derive(Clone, Copy)]
pub struct Begun {
    pub own: Record,
    pub header: Header,
    pub started: u64,
    pub outcome: Outcome,
    pub ghost tidy: { Tidy own.word },
    pub ghost header_tidy: { TidyHeader header },
}

impl Begun {
    ghost use Rattle.std.specs.Prelude.{◌≡◌};
    ghost use Rattle.reaction.specs.Reaction.{so_far};

    // Internal: nothing more is done.
    pub fn so_far(self) -> Reaction
        ensures { result ≡ so_far self }
    {
        Reaction {
            own: self.own,
            header: self.header,
            reach: Reach::Own,
            started: self.started,
            outcome: self.outcome,
        }
    }
}

// The same before a mark is set or goes, when either count can go up or down by one.
#[derive(Clone, Copy)]
pub struct Counted {
    pub begun: Begun,
    pub ghost ready: { Ready (shown_envelope begun.header) (shown_process begun.own.word) },
}
