// The statuses full and empty as a set, in two bits of which full is the lower one: what is asked for, what a process
// is marked for, the header's markers. Document 01, "The image".
ghost use Rattle.std.specs.Prelude.{◌≡◌, ◌-◌, ◌%◌, ◌<◌, cond};
ghost use Rattle.std.specs.Int.Bits.{bit_and, bit_or};

use std::ops::{BitAnd, BitOr, Not};

// One word, in which the bits are joined and counted without a test.
#[derive(Clone, Copy)]
pub struct Statuses {
    pub bits: u64,
    pub ghost two: { bits < 4 },
}

impl Statuses {
    // Internal: neither.
    pub fn none() -> Statuses
        ensures { result.bits ≡ 0 }
    {
        Statuses { bits: 0 }
    }

    // Internal: full alone, or empty alone.
    pub fn only(full: bool) -> Statuses
        ensures { result.bits ≡ cond full 1 2 }
    {
        Statuses {
            bits: if full { 1 } else { 2 },
        }
    }

    // Internal: the lowest two bits of a word.
    pub fn lowest_of(word: u64) -> Statuses
        ensures { result.bits ≡ word % 4 }
    {
        Statuses { bits: word % 4 }
    }
}

// In one or the other.
impl BitOr for Statuses {
    type Output = Statuses;

    ghost bitor_gives = { λ a b r. r.bits ≡ bit_or a.bits b.bits };

    fn bitor(self, rhs: Statuses) -> Statuses {
        Statuses {
            bits: self.bits | rhs.bits,
        }
    }
}

// In both.
impl BitAnd for Statuses {
    type Output = Statuses;

    ghost bitand_gives = { λ a b r. r.bits ≡ bit_and a.bits b.bits };

    fn bitand(self, rhs: Statuses) -> Statuses {
        Statuses {
            bits: self.bits & rhs.bits,
        }
    }
}

// The others.
impl Not for Statuses {
    type Output = Statuses;

    ghost not_gives = { λ a r. r.bits ≡ 3 - a.bits };

    fn not(self) -> Statuses {
        Statuses {
            bits: 3 - self.bits,
        }
    }
}
