// A process record as one number of eight bytes, by value: byte 0 is the stage, byte 1 the flags, byte 2 the requests
// and the marks, bytes 4 to 7 the note. Document 01, "The image".
ghost use Rattle.std.specs.Prelude.{◌≡◌, ◌+◌, ◌-◌, ◌*◌, ◌/◌, ◌≤◌, ◌<◌, length};
ghost use Rattle.std.specs.Int.Bits.{bit_and, bit_or};
ghost use Rattle.machine.specs.Bytes.{number, bytes as bytes_of, splice};
ghost use Rattle.machine.specs.Ring.{record_at};
ghost use Rattle.record.specs.Words.{stage_of, have_of, asked_of, itself_of, marks_of, note_of};

use crate::statuses::Statuses;
use little_endian::Word;

// A struct around the word, and no struct of its bytes: those would be taken apart and put together again wherever two
// ways meet, at twice the instructions.
#[derive(Clone, Copy)]
pub struct Record {
    pub word: u64,
}

// Bits of a record: the flags have, arriving and news,
pub const HAVE: u64 = 0x100;

pub const ARRIVING: u64 = 0x200;

pub const NEWS: u64 = 0x400;

// the lower one of two bits each: asked by the right, asked the left itself, marked, on the link from the right,
pub const ASKED: u64 = 0x1_0000;

pub const ITSELF: u64 = 0x4_0000;

pub const MARK: u64 = 0x10_0000;

pub const LINK: u64 = 0x40_0000;

// and the lowest of the note.
pub const NOTE: u64 = 0x1_0000_0000;

impl Record {
    // Internal: the record of process i of an image that is lent whole. Reading and writing are no trait that the
    // header has too: that has one place, and to name an offset in both would ask for more.
    pub fn at(image: &[u8], i: usize) -> Record
        requires { (i < 64) × (24 + 8 * i ≤ length image.now) }
        ensures { result.word ≡ number image.now (record_at i) 8 }
    {
        Record {
            word: u64::read_at(image, 16 + 8 * i),
        }
    }

    // Internal: this record, written as that of process i.
    pub fn put(self, image: &mut [u8], i: usize)
        requires { (i < 64) × (24 + 8 * i ≤ length image.old) }
        ensures { image.new ≡ splice image.old (record_at i) (bytes_of 8 self.word) }
    {
        self.word.write_at(image, 16 + 8 * i);
    }

    // Internal: the stage.
    pub fn stage(self) -> u64
        ensures { result ≡ stage_of self.word }
    {
        self.word % 256
    }

    // Internal: the record in another stage. A number, since document 01 asks for a match over stage numbers.
    pub fn with_stage(self, stage: u64) -> Record
        requires { stage < 256 }
        ensures { result.word ≡ self.word / 256 * 256 + stage }
    {
        Record {
            word: self.word / 256 * 256 + stage,
        }
    }

    // Internal: whether the envelope is here.
    pub fn has_envelope(self) -> bool
        ensures { result ≡ have_of self.word }
    {
        self.word / HAVE % 2 == 1
    }

    // Internal: what the right has asked for.
    pub fn asked(self) -> Statuses
        ensures { result.bits ≡ asked_of self.word }
    {
        Statuses::lowest_of(self.word / ASKED)
    }

    // Internal: what the process has asked the left for itself.
    pub fn itself(self) -> Statuses
        ensures { result.bits ≡ itself_of self.word }
    {
        Statuses::lowest_of(self.word / ITSELF)
    }

    // Internal: what the process is marked for.
    pub fn marks(self) -> Statuses
        ensures { result.bits ≡ marks_of self.word }
    {
        Statuses::lowest_of(self.word / MARK)
    }

    // Internal: the note.
    pub fn note(self) -> u64
        ensures { result ≡ note_of self.word }
    {
        self.word / NOTE
    }

    // Internal: the record with these bits set.
    pub fn with(self, bits: u64) -> Record
        ensures { result.word ≡ bit_or self.word bits }
    {
        Record {
            word: self.word | bits,
        }
    }

    // Internal: the record with these bits off.
    pub fn without(self, bits: u64) -> Record
        ensures { result.word ≡ bit_and self.word (18446744073709551615 - bits) }
    {
        Record {
            word: self.word & (0xFFFF_FFFF_FFFF_FFFF - bits),
        }
    }

    // Internal: a left neighbour's record, with these requests on the link from its right; a like one that waits there
    // absorbs one.
    pub fn requested(self, asks: Statuses) -> Record
        ensures { result.word ≡ bit_or self.word (asks.bits * 4194304) }
    {
        self.with(asks.bits * LINK)
    }

    // Internal: a right neighbour's record, with the envelope arriving from its left.
    pub fn arrived(self) -> Record
        ensures { result.word ≡ bit_or self.word 512 }
    {
        self.with(ARRIVING)
    }
}
