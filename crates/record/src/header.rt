// The header as two numbers of eight bytes, by value. In the first, byte 0 is N, byte 1 the status, byte 2 the markers,
// bytes 3 and 4 the counts of the processes marked for full and for empty; the second is the message. Document 01, "The
// image".
ghost use Rattle.std.specs.Prelude.{◌≡◌, ◌+◌, ◌-◌, ◌*◌, ◌/◌, ◌%◌, ◌^◌, ◌≤◌, ◌<◌, ◌++◌, length};
ghost use Rattle.std.specs.Int.Bits.{bit_and, bit_or};
ghost use Rattle.machine.specs.Bytes.{number, bytes as bytes_of, splice};
ghost use Rattle.machine.specs.Events as rule;
ghost use Rattle.record.specs.Words.{full_of, counted_as, TidyHeader, shown_envelope};

use crate::statuses::Statuses;
use little_endian::Word;

// The header's two words.
#[derive(Clone, Copy)]
pub struct Header {
    pub word: u64,
    pub message: u64,
}

// Bits of the first word: the lowest of the status, of the markers, and of both counts.
pub const STATUS: u64 = 0x100;

pub const MARKERS: u64 = 0x1_0000;

pub const MARKED_FULL: u64 = 0x100_0000;

pub const MARKED_EMPTY: u64 = 0x1_0000_0000;

// What makes a full envelope wanted: its marker and its count. And an empty one.
const WANTS_FULL: u64 = 0xFF01_0000;

const WANTS_EMPTY: u64 = 0xFF_0002_0000;

impl Header {
    // Internal: the header, of an image that is lent whole.
    pub fn of(image: &[u8]) -> Header
        requires { 16 ≤ length image.now }
        ensures { (result.word ≡ number image.now 0 8)
            × (result.message ≡ number image.now 8 8) }
    {
        Header {
            word: u64::read_at(image, 0),
            message: u64::read_at(image, 8),
        }
    }

    // Internal: this header, written.
    pub fn put(self, image: &mut [u8])
        requires { 16 ≤ length image.old }
        ensures { image.new
            ≡ splice image.old 0 (bytes_of 8 self.word ++ bytes_of 8 self.message) }
    {
        self.word.write_at(image, 0);
        self.message.write_at(image, 8);
    }

    // Internal: N.
    pub fn size(self) -> usize
        ensures { result ≡ self.word % 256 }
    {
        (self.word % 256) as usize
    }

    // Internal: whether the envelope is full.
    pub fn is_full(self) -> bool
        ensures { result ≡ full_of self.word }
    {
        self.word / STATUS % 2 == 1
    }

    // Internal: with these markers set, and off.
    pub fn with_markers(self, set: Statuses) -> Header
        ensures { (result.word ≡ bit_or self.word (set.bits * 65536)) × (result.message ≡ self.message) }
    {
        Header {
            word: self.word | set.bits * MARKERS,
            message: self.message,
        }
    }

    pub fn without_markers(self, off: Statuses) -> Header
        ensures { (result.word ≡ bit_and self.word (18446744073709551615 - off.bits * 65536))
            × (result.message ≡ self.message) }
    {
        Header {
            word: self.word & (0xFFFF_FFFF_FFFF_FFFF - off.bits * MARKERS),
            message: self.message,
        }
    }

    // Internal: with one more marked for full, for empty or for both, and with one fewer. By sums, since whether there
    // is a mark to count can't be foreseen: a branch took 3 % of a guided run.
    pub fn with_more(self, marked: Statuses) -> Header
        requires { self.word < 2 ^ 40 - 2 ^ 32 }
        ensures { (result.word ≡ self.word + counted_as marked.bits) × (result.message ≡ self.message) }
    {
        Header {
            word: self.word + (marked.bits % 2 * MARKED_FULL + marked.bits / 2 * MARKED_EMPTY),
            message: self.message,
        }
    }

    pub fn with_fewer(self, unmarked: Statuses) -> Header
        requires { counted_as unmarked.bits ≤ self.word }
        ensures { (result.word ≡ self.word - counted_as unmarked.bits) × (result.message ≡ self.message) }
    {
        Header {
            word: self.word - (unmarked.bits % 2 * MARKED_FULL + unmarked.bits / 2 * MARKED_EMPTY),
            message: self.message,
        }
    }

    // Internal: whether the envelope is wanted as it is: the marker of its status is on, or a process is marked for it.
    // By a clause, and not by the type: `of` answers for every image.
    pub fn is_wanted(self) -> bool
        requires { TidyHeader self }
        ensures { result ≡ rule.wanted (shown_envelope self) }
    {
        let wants = if self.is_full() {
            WANTS_FULL
        } else {
            WANTS_EMPTY
        };
        self.word & wants != 0
    }

    // Internal: full with this message, and empty.
    pub fn filled(self, message: u64) -> Header
        ensures { (result.word ≡ bit_or self.word 256) × (result.message ≡ message) }
    {
        Header {
            word: self.word | STATUS,
            message: message,
        }
    }

    pub fn emptied(self) -> Header
        ensures { (result.word ≡ bit_and self.word 18446744073709551359) × (result.message ≡ 0) }
    {
        Header {
            word: self.word & (0xFFFF_FFFF_FFFF_FFFF - STATUS),
            message: 0,
        }
    }
}
