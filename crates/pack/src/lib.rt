// Events packed into blocks of 63 slots, and taken out again. Document 01, "The tape".
#![tactic(auto)]

ghost use Rattle.std.specs.Prelude.{◌≡◌, ◌+◌, ◌*◌, ◌/◌, ◌≤◌, ◌<◌, length};
ghost use Rattle.machine.specs.Bytes.{part, splice};
ghost use Rattle.machine.specs.Lists.{join, tabulate};
ghost use Rattle.machine.specs.Tape.{block_bytes, padded, block_for, blocks_for};
ghost use Rattle.pack.specs.Pack.{width_in, taken_from};

use checksum::check_of;
use little_endian::Word;
use span::{clear, copy};

// Internal: how many blocks so many events take.
pub fn blocks_for(events: usize) -> usize
    requires { events ≤ 4128768 }
    ensures { (result ≡ blocks_for events) × (result ≤ 65536) }
{
    events.div_ceil(63)
}

// Internal: how many of so many bytes of events stand in block b: 504, or what is left.
pub fn width_in(total: usize, b: usize) -> usize
    requires { 504 * b ≤ total }
    ensures { (result ≡ width_in total b) × (result ≤ 504) × (504 * b + result ≤ total) }
{
    (total - 504 * b).min(504)
}

// Internal: a block completed round its events, so many bytes of them, which stand in its slots already: number and
// count, zeros behind the events, and the check of all these.
pub fn seal_block(block: &mut [u8], number: usize, used: usize)
    requires { (length block.old ≡ 512) × (number < 65536) × (used ≤ 504) }
    ensures { block.new ≡ block_bytes number (used / 8) (padded (part block.old 8 used)) }
{
    let unused = 504 - used;
    (number as u16).write_at(block, 0);
    ((used / 8) as u16).write_at(block, 2);
    clear(block, 8 + used, unused);
    let check = check_of(block.as_array().unwrap());
    check.write_at(block, 4);
}

// The block of this number for its events, written.
fn pack_block(events: &[u8], number: usize, block: &mut [u8])
    requires { (length events.now ≤ 504) × (number < 65536) × (length block.old ≡ 512) }
    ensures { block.new ≡ block_bytes number (length events.now / 8) (padded events.now) }
{
    copy(block, 8, events);
    seal_block(block, number, events.len());
}

// Internal: the first so many blocks of a list's tape, written. They go by number: of a tape lent in chunks a proof
// does not know afterwards what was written, and a block may be for no events, where a list has no chunk.
pub fn pack(list: &[u8], blocks: usize, tape: &mut [u8])
    requires { (blocks ≤ 65536) × (504 * blocks ≤ length list.now + 504) × (512 * blocks ≤ length tape.old) }
    ensures { tape.new
        ≡ splice tape.old 0 (join (tabulate (block_for list.now) 0 blocks)) }
{
    for b in 0..blocks {
        let from = 504 * b;
        let used = width_in(list.len(), b);
        pack_block(
            &list[from..from + used],
            b,
            &mut tape[512 * b..512 * b + 512],
        );
    }
}

// Internal: so many bytes of events, taken from so many blocks.
pub fn unpack(tape: &[u8], blocks: usize, list: &mut [u8], total: usize)
    requires { (512 * blocks ≤ length tape.now) × (504 * blocks ≤ total + 504) × (total ≤ length list.old) }
    ensures { list.new
        ≡ splice list.old 0 (join (tabulate (taken_from tape.now total) 0 blocks)) }
{
    let (whole, _) = tape.as_chunks::<512>();
    let mut at = 0;
    for block in &whole[..blocks] {
        let used = (total - at).min(504);
        copy(list, at, &block[8..8 + used]);
        at += used;
    }
}
