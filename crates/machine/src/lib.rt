// The values that document 01's rules speak of. The rules themselves stand in specs/, over these very types.
#![tactic(auto)]

ghost use Rattle.std.specs.Prelude.{◌≡◌};
ghost use Rattle.machine.specs.Run.{outcome_number, outcome_message};
ghost use Rattle.machine.specs.Refusals.{number_of, place_of};

// A value for each status, full and empty: a bit, or how many processes are marked for it.
#[derive(Clone, Copy)]
pub struct Pair<T> {
    pub full: T,
    pub empty: T,
}

// The one envelope: the token of a token ring, which may carry a message. A marker on it is a pending demand for one of
// its statuses, and `marked` counts the waiters that it has passed and must come back to.
#[derive(Clone, Copy)]
pub struct Envelope {
    pub full: bool,
    pub marker: Pair<bool>,
    pub marked: Pair<u8>,
    pub message: u32,
}

// A process: a node of the ring with its main, get and put threads. `asked` is asked by the right, `itself` asked the
// left itself, `link` a request on the link from the right. The put thread's `news` is its wake-up flag, a `mark` makes
// the process a waiter that the envelope counts, and the note is the send buffer: the message to send. The stage is a
// number, since document 01 asks for a match over stage numbers.
#[derive(Clone, Copy)]
pub struct Process {
    pub stage: u8,
    pub have: bool,
    pub arriving: bool,
    pub news: bool,
    pub asked: Pair<bool>,
    pub itself: Pair<bool>,
    pub mark: Pair<bool>,
    pub link: Pair<bool>,
    pub note: u32,
}

// What an event at a process came to.
#[derive(Clone, Copy, Debug, PartialEq, Eq)]
pub enum Outcome {
    Idle,
    Moved,
    Fill(u32),
    Take(u32),
    Sent,
    Got,
}

impl Outcome {
    // Internal: its number, 0 to 5; of fill, take, sent and got it is the ledger's code.
    pub fn number(self) -> u8
        ensures { result ≡ outcome_number self }
    {
        match self {
            Outcome::Idle => 0,
            Outcome::Moved => 1,
            Outcome::Fill(_) => 2,
            Outcome::Take(_) => 3,
            Outcome::Sent => 4,
            Outcome::Got => 5,
        }
    }

    // Internal: its message: that of a fill or a take, else 0.
    pub fn message(self) -> u32
        ensures { result ≡ outcome_message self }
    {
        match self {
            Outcome::Fill(message) | Outcome::Take(message) => message,
            Outcome::Idle | Outcome::Moved | Outcome::Sent | Outcome::Got => 0,
        }
    }
}

// What an event at one process does: to its record and to the envelope, the requests that it puts on the link to the
// left, whether the envelope leaves to the right, and the outcome.
#[derive(Clone, Copy)]
pub struct Reaction {
    pub process: Process,
    pub envelope: Envelope,
    pub asks: Pair<bool>,
    pub leaves: bool,
    pub outcome: Outcome,
}

// The eight counts of a run, in their order.
#[derive(Clone, Copy, Debug, Default, PartialEq, Eq)]
pub struct Counts {
    pub puts: u64,
    pub gets: u64,
    pub fills: u64,
    pub takes: u64,
    pub sent: u64,
    pub got: u64,
    pub idle: u64,
    pub records: u64,
}

// The link traffic of an event, or of a list of them: how many requests went on the link to the left, also where one
// waits there and absorbs it, and how often the envelope left to the right.
#[derive(Clone, Copy, Debug, Default, PartialEq, Eq)]
pub struct Traffic {
    pub requests: u64,
    pub departures: u64,
}

// The rows of the table of refusals, in the order of their numbers; those with a place hold it.
#[derive(Clone, Copy, Debug, PartialEq, Eq)]
pub enum Refusal {
    Size,
    Home,
    Short,
    Unsound,
    Event(usize),
    Length,
    Check(usize),
    Block(usize),
    Unused(usize),
    Output,
    Seed,
}

impl Refusal {
    // Internal: the table's number.
    pub fn number(self) -> u64
        ensures { result ≡ number_of self }
    {
        match self {
            Refusal::Size => 1,
            Refusal::Home => 2,
            Refusal::Short => 3,
            Refusal::Unsound => 4,
            Refusal::Event(_) => 5,
            Refusal::Length => 6,
            Refusal::Check(_) => 7,
            Refusal::Block(_) => 8,
            Refusal::Unused(_) => 9,
            Refusal::Output => 10,
            Refusal::Seed => 11,
        }
    }

    // Internal: where: 5 has the number of the event, 7 to 9 that of the block; the others have 0.
    pub fn place(self) -> usize
        ensures { result ≡ place_of self }
    {
        match self {
            Refusal::Event(k) => k,
            Refusal::Check(b) | Refusal::Block(b) | Refusal::Unused(b) => b,
            Refusal::Size
            | Refusal::Home
            | Refusal::Short
            | Refusal::Unsound
            | Refusal::Length
            | Refusal::Output
            | Refusal::Seed => 0,
        }
    }
}

// What a call answers: done, with what it has to tell, or refused. Document 01's answer enum, by the library's name.
pub type Answer<T> = Result<T, Refusal>;

// What a test answers: nothing, or its refusal.
pub type Verdict = Answer<()>;
