// The check of a block: two sums over its words of 16 bits, in the field a Fletcher checksum. Document 01, "The tape".
#![tactic(auto)]

ghost use Rattle.std.specs.Prelude.{◌≡◌, ◌+◌, ◌^◌, ◌<◌};
ghost use Rattle.machine.specs.Tape.{check, covered};

use little_endian::Word;

// One of a slot's four words over the slots passed: its sum, and what that sum was after each slot, summed.
#[derive(Drop)]
struct Column {
    sum: u32,
    sums: u32,
}

impl Column {
    // Before the first slot.
    fn new() -> Column
        ensures { result ≡ record { sum = 0; sums = 0 } }
    {
        Column { sum: 0, sums: 0 }
    }

    // After one slot more.
    fn then(self, word: u16) -> Column
        requires { self.sums + (self.sum + word) < 2 ^ 32 }
        ensures { result ≡ record { sum = self.sum + word; sums = self.sums + (self.sum + word) } }
    {
        let sum = self.sum + u32::from(word);
        Column {
            sum,
            sums: self.sums + sum,
        }
    }
}

// Internal: the check of a block's bytes. Each of a slot's four words is summed over the slots, and these sums are
// summed again after every slot. Four times that counts a word too often by its place in its slot, which is taken off.
// All sums fit, and one remainder at the end does for all.
pub fn check_of(block: &[u8; 512]) -> u32
    ensures { result ≡ check (covered block.now 0) }
{
    let number = u32::from(u16::read_at(block, 0));
    let count = u32::from(u16::read_at(block, 2));
    let mut first = Column::new();
    let mut second = Column::new();
    let mut third = Column::new();
    let mut fourth = Column::new();
    let (slots, _) = block[8..].as_chunks::<8>();
    for slot in slots {
        first = first.then(u16::read_at(slot, 0));
        second = second.then(u16::read_at(slot, 2));
        third = third.then(u16::read_at(slot, 4));
        fourth = fourth.then(u16::read_at(slot, 6));
    }
    let total = number + count + first.sum + second.sum + third.sum + fourth.sum;
    let often = 254 * number
        + 253 * count
        + 4 * (first.sums + second.sums + third.sums + fourth.sums);
    let weighed = often - (second.sum + 2 * third.sum + 3 * fourth.sum);
    total % 65535 + 65536 * (weighed % 65535)
}
