// One walk over an image's records: what each is demanded to be by its stage, and what all of them come to, sound or
// not. Document 01, "The image", its paragraph on soundness; document 02, A.3.
ghost use Rattle.std.specs.Prelude.{◌≡◌, ◌+◌, ◌*◌, ◌^◌, ◌≤◌, ◌<◌, length, eqb};
ghost use Rattle.sound.specs.Demands.{demand_of};
ghost use Rattle.sound.specs.Walk.{walked_on, Walked, stand_in, flags_in, counts_in};

use little_endian::Word;

// What a walk gathers of the records behind it: the first whose bytes aren't in range, or where they end; every bit
// that is left under a record's mask; a sum of the have and arriving flags, with marks summed up above them; and the
// sets of the processes marked for full and for empty. An `Option` as `first` cost 1 instruction of 20 a record.
#[derive(Clone, Copy)]
pub struct Walk {
    pub first: usize,
    pub left: u64,
    pub flags: u64,
    pub full: u64,
    pub empty: u64,
}

// A record's bits that must be 0, by its stage. In stages 0 and 6 no mark and no note may stand; in 1 a note; in 2 and
// 3 a note and mark empty; in 4 and 5 mark empty; in 7 to 10 mark full.
const PLAIN: u64 = 0xFFFF_FFFF_FF30_F8F0;

const TOLD: u64 = 0x0000_0000_FF30_F8F0;

const SENDING: u64 = 0x0000_0000_FF10_F8F0;

const FILLED: u64 = 0xFFFF_FFFF_FF10_F8F0;

const RECEIVING: u64 = 0xFFFF_FFFF_FF20_F8F0;

// Have and the stage's three lowest bits are turned over before they are masked: where a mask has them, they must be 1.
const TURNED: u64 = 0x107;

// With have, where the stage has the envelope.
const MAY_FILL: u64 = SENDING + 0x100;

const FILLED_HERE: u64 = FILLED + 0x100;

const EMPTYING: u64 = RECEIVING + 0x100;

// With all four, where it may not stand under this status: none of these stages has its three lowest bits set.
const NO_FILL: u64 = SENDING + TURNED;

const NOT_FILLED: u64 = FILLED + TURNED;

const NO_EMPTYING: u64 = RECEIVING + TURNED;

// The mask of an entry, which is stage + 16 * status. Above stage 10 the stage itself is what is left. One value an
// arm, and a last entry of its own, so that the masks lie in one table.
#[tactic(auto, using(crate::proofs::Rows::rest_is), unfolding(crate::specs::Demands::demand_of))]
fn demand(entry: u64) -> u64
    requires { entry < 32 }
    ensures { result ≡ demand_of entry }
{
    match entry {
        // empty
        0 => PLAIN,
        1 => TOLD,
        2 => SENDING,
        3 => MAY_FILL,
        4 => NOT_FILLED,
        5 => NOT_FILLED,
        6 => PLAIN,
        7 => RECEIVING,
        8 => NO_EMPTYING,
        9 => EMPTYING,
        10 => EMPTYING,
        // full
        16 => PLAIN,
        17 => TOLD,
        18 => SENDING,
        19 => NO_FILL,
        20 => FILLED_HERE,
        21 => FILLED_HERE,
        22 => PLAIN,
        23 => RECEIVING,
        24 => EMPTYING,
        25 => NO_EMPTYING,
        26 => NO_EMPTYING,
        31 => 0xFF,
        _ => 0xF8,
    }
}

// One mask for a flag and for a mark, which stands above whatever flags are summed up: three instructions a record less
// than a mask each, and a seventh of a step of 64 processes.
const HAVE_AND_FULL: u64 = 0x10_0100;

const ARRIVING_AND_EMPTY: u64 = 0x20_0200;

// All bits but the turned ones: what a record's own bytes break.
const OWN: u64 = 0xFFFF_FFFF_FFFF_FEF8;

impl Walk {
    // The walk with record i before those seen. The status is 0 or 1, since an entry of the masks is 16 times it.
    fn on(self, status: u64, i: usize, word: u64) -> Walk
        requires { (status < 2) × (self.flags < 2 ^ 63) × (self.full < 2 ^ 63) × (self.empty < 2 ^ 63) }
        ensures { result ≡ walked_on self status i word }
    {
        let with_full = word & HAVE_AND_FULL;
        let with_empty = word & ARRIVING_AND_EMPTY;
        let flags = self.flags + 2 * with_full + with_empty;
        let full = 2 * self.full + with_full / 0x10_0000;
        let empty = 2 * self.empty + with_empty / 0x20_0000;
        let left = demand(16 * status + word % 16) & (word ^ TURNED);
        let first = if left & OWN == 0 { self.first } else { i };
        Walk {
            first: first,
            left: self.left | left,
            flags: flags,
            full: full,
            empty: empty,
        }
    }

    // Internal: the walk over n records, from the last to the first, so that digit i of a set is process i.
    #[tactic(auto, using(crate::proofs::Walked::going_end, crate::proofs::Walked::going_room))]
    pub fn over(image: &[u8], status: u64, n: usize) -> Walk
        requires { (status < 2) × (n ≤ 64) × (16 + 8 * n ≤ length image.now) }
        ensures { Walked image.now (eqb status 1) 0 n result }
    {
        let mut walk = Walk {
            first: n,
            left: 0,
            flags: 0,
            full: 0,
            empty: 0,
        };
        let (records, _) = image[16..16 + 8 * n].as_chunks::<8>();
        for (i, record) in records.iter().enumerate().rev() {
            walk = walk.on(status, i, u64::read_at(record, 0));
        }
        walk
    }

    // Internal: whether every stage has the envelope that it needs, where the bytes of all records are in range.
    pub fn stages_stand(self) -> bool
        ensures { result ≡ stand_in self }
    {
        self.left & TURNED == 0
    }

    // Internal: how many have and arriving flags are set.
    pub fn flags(self) -> u64
        ensures { result ≡ flags_in self }
    {
        self.flags % 0x20_0000 / 0x200
    }

    // Internal: how many are in both sets, as header bytes 3 and 4 have it. Where nobody is marked no ones are counted:
    // 8 % of a step of two processes.
    #[tactic(auto, using(crate::proofs::Walked::counts_none))]
    pub fn counts(self) -> u64
        ensures { result ≡ counts_in self }
    {
        if self.full | self.empty == 0 {
            return 0;
        }
        u64::from(self.full.count_ones()) + 256 * u64::from(self.empty.count_ones())
    }
}
