// The tests of a tape and of a list. A tape: its length, then block by block the check, number and count, the events of
// its used slots, and its unused slots. A list: its length, then its events. Document 01, the order under its table.
#![tactic(auto)]

ghost use Rattle.std.specs.Prelude.{◌≡◌, ◌+◌, ◌*◌, ◌≤◌, ◌<◌, length};
ghost use Rattle.machine.specs.Refusals as rule;
ghost use Rattle.tape_test.specs.Accepted.{HeadOf, events_on, Accepted};

use checksum::check_of;
use event::Event;
use little_endian::Word;
use machine::{Refusal, Verdict};
use span::is_clear;

// Internal: the length of a list or a tape: whole units, none or up to so many; refused with 6.
pub fn length_verdict(bytes: &[u8], unit: usize, most: usize) -> Verdict
    requires { 0 < unit }
    ensures { result ≡ rule.length_verdict unit most bytes.now }
{
    let fits = (bytes.len() % unit == 0) & (bytes.len() / unit <= most);
    if fits { Ok(()) } else { Err(Refusal::Length) }
}

// The most blocks that a tape has.
const MOST_BLOCKS: usize = 65536;

// The verdict of the head of block b of so many: refused with 7 for its check, 8 for its number or its count.
fn head_verdict(block: &[u8; 512], b: usize, blocks: usize) -> Verdict
    requires { b < blocks }
    ensures { HeadOf block.now b blocks result }
{
    let written = u32::read_at(block, 4);
    if check_of(block) != written {
        return Err(Refusal::Check(b));
    }
    let number = usize::from(u16::read_at(block, 0));
    let count = usize::from(u16::read_at(block, 2));
    let last = b + 1 == blocks;
    let fits = (number == b) & (1 <= count) & (count <= 63) & ((count == 63) | last);
    if fits { Ok(()) } else { Err(Refusal::Block(b)) }
}

// Internal: a tape's verdict, for n processes and so many codes: block by block its head, its events slot by slot, and
// its unused slots. The first that is refused leaves both loops.
pub fn tape_verdict(tape: &[u8], n: usize, codes: u8) -> Verdict
    ensures { result ≡ rule.tape_verdict codes n tape.now }
{
    let mut verdict = length_verdict(tape, 512, MOST_BLOCKS);
    let Ok(()) = verdict else {
        return verdict;
    };
    let (blocks, _) = tape.as_chunks::<512>();
    'blocks: for (b, block) in blocks.iter().enumerate() {
        let head = head_verdict(block, b, blocks.len());
        let Ok(()) = head else {
            verdict = head;
            break 'blocks;
        };
        let count = usize::from(u16::read_at(block, 2));
        let (slots, _) = block[8..].as_chunks::<8>();
        for (j, slot) in slots[..count].iter().enumerate() {
            if !Event::fits(slot, n, codes) {
                verdict = Err(Refusal::Event(63 * b + j));
                break 'blocks;
            }
        }
        if !is_clear(&block[8 + 8 * count..512]) {
            verdict = Err(Refusal::Unused(b));
            break 'blocks;
        }
    }
    verdict
}

// Internal: a list's verdict, for n processes and so many codes: its length, then its events.
pub fn list_verdict(list: &[u8], n: usize, codes: u8) -> Verdict
    ensures { result ≡ rule.list_verdict codes n list.now }
{
    let verdict = length_verdict(list, 8, 63 * MOST_BLOCKS);
    let Ok(()) = verdict else {
        return verdict;
    };
    let (slots, _) = list.as_chunks::<8>();
    for (k, slot) in slots.iter().enumerate() {
        if !Event::fits(slot, n, codes) {
            return Err(Refusal::Event(k));
        }
    }
    verdict
}

// Internal: how many events an accepted tape has: 63 a block, but in the last; none where there is no block.
pub fn event_count(tape: &[u8]) -> usize
    requires { Accepted tape.now }
    ensures { result ≡ events_on tape.now }
{
    if tape.len() == 0 {
        return 0;
    }
    let last = tape.len() / 512 - 1;
    let count = usize::from(u16::read_at(tape, 512 * last + 2));
    63 * last + count
}
