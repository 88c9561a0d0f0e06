// An event as a struct by value: read from eight bytes and written, tested, and applied to the header and its process's
// record. What it does comes back by value too, the only place where an event's effect is decided. Document 01, "The
// eight events".
#![tactic(auto)]

ghost use Rattle.std.specs.Prelude.{◌≡◌, ◌+◌, ◌≤◌, ◌<◌, length};
ghost use Rattle.machine.specs.Bytes.{splice};
ghost use Rattle.machine.specs.Tape.{event_in, event_bytes};
ghost use Rattle.machine.specs.Refusals.{codes as known, event_fits, event_verdict};
ghost use Rattle.machine.specs.Events as rule;
ghost use Rattle.record.specs.Words.{stage_of, shown_process, shown_envelope, Tidy, TidyHeader};
ghost use Rattle.event.specs.Parsed.{event_of, ruled};
ghost use Rattle.event.specs.Rows.{codes_at, need_of, started_by, row_of, Possible};
ghost use Rattle.event.specs.Applied.{worked, Applicable, Reacts};

use little_endian::Word;
use machine::{Outcome, Refusal, Verdict};
use reaction::Reaction;
use reaction::begun::{Begun, Counted};
use reaction::put::put_at;
use record::header::Header;
use record::process;
use record::process::Record;
use span::put;

// At which process, its code, and the message of code 0. The code is a number and no enum, since `parse` answers for
// every byte, and tables are read by it.
#[derive(Clone, Copy)]
pub struct Event {
    pub process: usize,
    pub code: u8,
    pub message: u32,
}

// Codes 0 to 3 as bits of byte 3, which is zero in a record.
const STARTS_PUT: u64 = 0x100_0000;

const STARTS_GET: u64 = 0x200_0000;

const WORKS: u64 = 0x400_0000;

const SIGNALS: u64 = 0x800_0000;

// What a process in stage 0 may do, and what none may.
const STARTS: u64 = STARTS_PUT + STARTS_GET;

const NONE: u64 = 0x1000_0000;

// The codes that a stage makes possible. By number, as stages and codes are in a record and an event. One value an
// arm and a last entry of its own, so that they lie in one table.
#[tactic(auto, unfolding(crate::specs::Rows::codes_at))]
fn codes_at(stage: u64) -> u64
    requires { stage < 16 }
    ensures { result ≡ codes_at stage }
{
    match stage {
        0 => STARTS,
        1 => SIGNALS,
        3 => WORKS,
        4 => SIGNALS,
        6 => SIGNALS,
        8 => WORKS,
        9 => SIGNALS,
        15 => NONE,
        _ => 0,
    }
}

// The link's request for empty; that for full is the lower one.
const LINK_EMPTY: u64 = 2 * process::LINK;

// The bit that makes an event possible, by code. All codes are named, so that the table needs no test of its range.
#[tactic(auto, unfolding(crate::specs::Rows::need_of))]
fn need_of(code: u8) -> u64
    requires { code < 8 }
    ensures { result ≡ need_of code }
{
    match code {
        0 => STARTS_PUT,
        1 => STARTS_GET,
        2 => WORKS,
        3 => SIGNALS,
        4 => process::ARRIVING,
        5 => process::LINK,
        6 => LINK_EMPTY,
        7 => process::NEWS,
        _ => 0,
    }
}

// What a possible event does to its own record before anything else: bits off, and what is then added, which is the
// stage's step and bits that are off; and what it counts as started.
#[derive(Clone, Copy)]
pub struct Row {
    pub off: u64,
    pub on: u64,
    pub started: u64,
}

// What a start adds to a word of counts (`turns::turns`): a put, a get.
pub const PUTS: u64 = 0x400_0000_0000;

pub const GETS: u64 = 0x2_0000_0000_0000;

// All of the note.
const WHOLE_NOTE: u64 = 0xFFFF_FFFF_0000_0000;

// Main has signalled: the next stage, and news.
const SIGNALLED: u64 = process::NEWS + 1;

// The envelope arrives: all three flags go, and these come.
const FLAGS: u64 = process::HAVE + process::ARRIVING + process::NEWS;

const RECEIVED: u64 = process::HAVE + process::NEWS;

// A request is heard: these go, the link's among them, and these come.
const HEARS_FULL: u64 = process::LINK + process::ASKED + process::NEWS;

const HEARD_FULL: u64 = process::ASKED + process::NEWS;

const HEARS_EMPTY: u64 = LINK_EMPTY + 2 * process::ASKED + process::NEWS;

const HEARD_EMPTY: u64 = 2 * process::ASKED + process::NEWS;

// A row that changes nothing.
const SAME: Row = Row {
    off: 0,
    on: 0,
    started: 0,
};

// A row for each code: one match that hands back all of it, since two matches over one value become a jump.
#[tactic(auto, unfolding(crate::specs::Rows::row_of))]
fn row_of(code: u8) -> Row
    requires { code < 8 }
    ensures { result ≡ row_of code }
{
    match code {
        0 => Row {
            off: WHOLE_NOTE,
            on: 1,
            started: PUTS,
        },
        1 => Row {
            on: 6,
            started: GETS,
            ..SAME
        },
        2 => Row { on: 1, ..SAME },
        3 => Row {
            off: process::NEWS,
            on: SIGNALLED,
            ..SAME
        },
        4 => Row {
            off: FLAGS,
            on: RECEIVED,
            ..SAME
        },
        5 => Row {
            off: HEARS_FULL,
            on: HEARD_FULL,
            ..SAME
        },
        6 => Row {
            off: HEARS_EMPTY,
            on: HEARD_EMPTY,
            ..SAME
        },
        7 => Row {
            off: process::NEWS,
            ..SAME
        },
        _ => SAME,
    }
}

// Code 2, main works, its stage already the next: it fills the envelope with the note, or takes the message out.
fn work(step: Begun) -> Reaction
    ensures { Reacts (worked (shown_envelope step.header) (shown_process step.own.word)) step.header
        step.started result }
{
    let Begun { own, header, .. } = step;
    if own.stage() == 4 {
        let note = own.note();
        return Reaction {
            own: Record {
                word: own.word % 0x1_0000_0000,
            },
            header: header.filled(note),
            outcome: Outcome::Fill(note as u32),
            ..step.so_far()
        };
    }
    Reaction {
        header: header.emptied(),
        outcome: Outcome::Take(header.message as u32),
        ..step.so_far()
    }
}

impl Event {
    // How many codes there are.
    pub const CODES: u8 = 8;

    // Internal: whether an event for n processes and so many codes stands in a slot: two numbers, since the theorems
    // are of any number of codes. Its bytes are tested as one number: beside the process nothing counts where code
    // and zeros are 0, since any message may follow, and else all does. Four instructions less for an event of a run
    // than field by field.
    pub fn fits(slot: &[u8; 8], n: usize, codes: u8) -> bool
        ensures { result ≡ event_fits codes n slot.now 0 }
    {
        let word = u64::from_le_bytes(*slot);
        let beside = if word % 4294967296 < 256 { 0 } else { word };
        (word % 256 < n as u64) & (beside < 256 * u64::from(codes))
    }

    // Internal: the event whose fields stand in a slot.
    #[tactic(auto, using(crate::proofs::Bytes::event_read))]
    pub fn parse(slot: &[u8; 8]) -> Event
        ensures { result ≡ event_of (event_in slot.now 0) }
    {
        Event {
            process: usize::from(slot[0]),
            code: slot[1],
            message: u32::read_at(slot, 4),
        }
    }

    // Internal: the event's eight bytes, written from `at` on; its process, an index here, is a byte there. Into a
    // slot that the caller cuts out, 1 instruction more of the 46 of a drawn event; handed back as `[u8; 8]`, 3.
    pub fn put(self, bytes: &mut [u8], at: usize)
        requires { (self.process < 256) × (at + 8 ≤ length bytes.old) }
        ensures { bytes.new ≡ splice bytes.old at (event_bytes (ruled self)) }
    {
        put(bytes, at, &[self.process as u8, self.code, 0, 0]);
        self.message.write_at(bytes, at + 4);
    }

    // Internal: the verdict of a single event for n processes: refused with 5 at 0.
    pub fn verdict(bytes: &[u8], n: usize) -> Verdict
        ensures { result ≡ event_verdict known n bytes.now }
    {
        let Some(slot) = bytes.as_array::<8>() else {
            return Err(Refusal::Event(0));
        };
        if Event::fits(slot, n, Event::CODES) {
            Ok(())
        } else {
            Err(Refusal::Event(0))
        }
    }

    // Internal: whether the event is possible at a process with this record: one test of its bits, and of those that
    // its stage stands for. What it asks of code and record is no type's invariant: `parse` and `Record::at` answer for
    // every byte and image, and a type for those that are in order would be made and used in `place::perform` alone.
    pub fn is_possible(self, own: Record) -> bool
        requires { (self.code < 8) × Tidy own.word × (stage_of own.word ≤ 10) }
        ensures { Possible self.code own.word result }
    {
        (own.word | codes_at(own.word % 16)) & need_of(self.code % 8) != 0
    }

    // Internal: what the event, which is possible, does at a process with this record.
    pub fn apply(self, header: Header, own: Record) -> Reaction
        requires { Applicable self header own }
        ensures { Reacts
            (rule.react self.code self.message (shown_envelope header) (shown_process own.word)) header
            (started_by self.code) result }
    {
        let code = self.code;
        let row = row_of(code % 8);
        // `as` on the message: the value keeps its name in the proof of a sum that is long already
        let begun = Begun {
            own: Record {
                word: (own.word & (0xFFFF_FFFF_FFFF_FFFF - row.off))
                    + row.on
                    + self.message as u64 * 0x1_0000_0000,
            },
            header,
            started: row.started,
            outcome: Outcome::Moved,
        };
        if code == 7 {
            return put_at(Counted { begun });
        }
        if code == 2 {
            return work(begun);
        }
        begun.so_far()
    }
}
