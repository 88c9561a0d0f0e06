// loads: what anyone can hold a generator and a tape against. It writes the 10,000th number drawn from 1, which was
// published, and of three loads each block's number, count and check, and the first eight events. Document 02, A.1.
//
// All numbers come from the library's own functions; what it must write (`stdout`) was calculated apart from this
// repository, by a program written from the documents alone.
#![tactic(auto)]

use event::Event;
use little_endian::Word;
use load::{load, next};
use std::io;

// Which number drawn from 1 was published.
const PUBLISHED: usize = 10000;

// A block of a tape: its number, its count and its check.
fn say_block(rt: &HostRuntime, block: &[u8; 512]) -> io::Result<()> {
    let number = u16::read_at(block, 0);
    let events = u16::read_at(block, 2);
    let check = u32::read_at(block, 4);
    println!(rt; "block {number} events {events} check {check}")
}

// An event of a tape's first block: its number, process, code and message.
fn say_event(rt: &HostRuntime, k: usize, slot: &[u8; 8]) -> io::Result<()> {
    let Event {
        process,
        code,
        message,
    } = Event::parse(slot);
    println!(rt; "{k} {process} {code} {message}")
}

// A load of up to four blocks.
fn say_load(rt: &HostRuntime, n: u64, seed: u64, count: u64) -> io::Result<()> {
    let mut tape = [0; 2048];
    let answer = load(n, seed, count, &mut tape);
    let Ok(filled) = answer else {
        return Ok(());
    };
    println!(rt; "load {n} {seed} {count}")?;
    let (blocks, _) = tape.as_chunks::<512>();
    for block in blocks.iter().take(filled / 512) {
        say_block(rt, block)?;
    }
    let (slots, _) = tape[8..72].as_chunks::<8>();
    for (k, slot) in slots.iter().enumerate() {
        say_event(rt, k, slot)?;
    }
    Ok(())
}

fn main(rt: HostRuntime) -> io::Result<()> {
    let mut last = 1;
    for _ in 0..PUBLISHED {
        last = next(last);
    }
    println!(rt; "{last}")?;
    say_load(&rt, 4, 1, 63)?;
    say_load(&rt, 2, 2147483646, 64)?;
    say_load(&rt, 64, 123456789, 200)
}
