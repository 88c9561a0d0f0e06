// The load call: a tape of events drawn from a seed, which anyone can repeat. Document 02, A.1.
#![tactic(auto)]

ghost use Rattle.std.specs.Prelude.{◌≡◌, ◌+◌, ◌*◌, ◌/◌, ◌≤◌, ◌<◌, length};
ghost use Rattle.machine.specs.Bytes.{splice};
ghost use Rattle.machine.specs.Tape.{list_bytes, block_for};
ghost use Rattle.machine.specs.Lists.{join, tabulate};
ghost use Rattle.machine.specs.Refusals.{or_else, size_verdict, seed_verdict, count_verdict};
ghost use Rattle.machine.specs.Load.{drawn, load_event, load_events, load_answer, load_output};
ghost use Rattle.machine.specs.Load as rule;
ghost use Rattle.event.specs.Parsed.{ruled};
ghost use Rattle.machine.specs.Answers.{in_numbers};
ghost use Rattle.numbers.specs.Values.{one};

use event::Event;
use image::Ring;
use machine::{Answer, Refusal, Verdict};
use pack::{blocks_for, seal_block, width_in};

// The modulus of the generator; seeds and numbers drawn are 1 to one less.
const MODULUS: u64 = 2147483647;

const MOST: u64 = MODULUS - 1;

// A tape has at most so many events.
const MOST_EVENTS: u64 = 4128768;

// How many codes are drawn from: not the number of codes that there are.
const CODES: u64 = 8;

// Internal: the number drawn after this one. The modulus is one less than 2,147,483,648, so a product leaves what its
// digits to that base leave together, which is at most once the modulus too much: 7.6 ns an event, by `%` 12.5.
#[tactic(auto, using(crate::proofs::Drawn::left_over_lem))]
pub fn next(last: u64) -> u64
    requires { last ≤ 2147483646 }
    ensures { (result ≡ rule.next last) × (result ≤ 2147483646) }
{
    let product = 16807 * last;
    let sum = product % 2147483648 + product / 2147483648;
    if sum <= MOST { sum } else { sum - MODULUS }
}

// The events of a load for n processes, drawn one after the other; `last` is the number drawn last.
#[derive(Clone, Copy)]
struct Draws {
    n: u64,
    last: u64,
    ghost some: { 1 ≤ n },
    ghost few: { n ≤ 64 },
    ghost in_range: { last ≤ 2147483646 },
}

impl Draws {
    // The next number.
    fn draw(&mut self) -> u64
        ensures drawn { result ≡ rule.next self.old.last }
        ensures last { self.new.last ≡ result }
        ensures same { self.new.n ≡ self.old.n }
    {
        self.last = next(self.last);
        self.last
    }

    // The next event. A third number is drawn for every event, and is the message of code 0.
    fn draw_event(&mut self) -> Event
        ensures event { ruled result ≡ load_event self.old.n self.old.last 0 }
        ensures last { self.new.last ≡ drawn self.old.last 3 }
        ensures same { self.new.n ≡ self.old.n }
    {
        let first = self.draw();
        let second = self.draw();
        let third = self.draw();
        let process = (first % self.n) as usize;
        let code = (second % CODES) as u8;
        let message = if code == 0 { third as u32 } else { 0 };
        Event {
            process: process,
            code: code,
            message: message,
        }
    }

    // The next events, as many as the slots have room for. Not over their chunks: nothing would be known of the slots
    // behind, since std doesn't say what a slice ends as whose chunks are written.
    fn draw_events(&mut self, slots: &mut [u8])
        ensures events { slots.new
            ≡ splice slots.old 0 (list_bytes (load_events self.old.n self.old.last (length slots.old / 8))) }
        ensures last { self.new.last ≡ drawn self.old.last (3 * (length slots.old / 8)) }
        ensures same { self.new.n ≡ self.old.n }
    {
        for k in 0..slots.len() / 8 {
            let event = self.draw_event();
            event.put(slots, 8 * k);
        }
    }

    // The first so many blocks of a tape of the next events, each sealed when its events are drawn. By number, and not
    // over the tape's chunks, for the same reason.
    fn draw_blocks(self, count: usize, blocks: usize, tape: &mut [u8])
        requires { (count ≤ 4128768) × (63 * blocks ≤ count + 62) × (512 * blocks ≤ length tape.old) }
        ensures { tape.new
            ≡ splice tape.old 0
            (join (tabulate (block_for (list_bytes (load_events self.n self.last count))) 0 blocks)) }
    {
        let mut draws = self;
        for b in 0..blocks {
            let used = width_in(8 * count, b);
            let start = 512 * b + 8;
            draws.draw_events(&mut tape[start..start + used]);
            seal_block(&mut tape[512 * b..512 * b + 512], b, used);
        }
    }
}

// Internal: the verdict of what the call is given: 1 for n, 11 for the seed, 6 for the count. The output's stands
// apart. It mirrors its own rule (`step::step_verdict`).
#[tactic(auto, unfolding(machine::specs::Refusals::size_verdict))]
pub fn load_verdict(n: u64, seed: u64, count: u64) -> Verdict
    ensures { result ≡ or_else (size_verdict n) (or_else (seed_verdict seed) (count_verdict count)) }
{
    if !Ring::fits(n) {
        return Err(Refusal::Size);
    }
    let seeded = (1 <= seed) & (seed <= MOST);
    if !seeded {
        return Err(Refusal::Seed);
    }
    let few = count <= MOST_EVENTS;
    if !few {
        return Err(Refusal::Length);
    }
    Ok(())
}

// The load call: the tape of so many events for n processes, drawn from the seed, at the start of the output, whose
// further bytes stay; or the refusal of its inputs' verdict, or 10 for the output.
#[tactic(auto, using(crate::proofs::Ways::load_given))]
pub fn load(n: u64, seed: u64, count: u64, output: &mut [u8]) -> Answer<usize>
    ensures answer { in_numbers one result ≡ load_answer n seed count output.old }
    ensures buffer { output.new ≡ load_output n seed count output.old }
{
    let verdict = load_verdict(n, seed, count);
    let Ok(()) = verdict else {
        return Err(verdict.unwrap_err());
    };
    let blocks = blocks_for(count as usize);
    let tape_length = 512 * blocks;
    if output.len() < tape_length {
        return Err(Refusal::Output);
    }
    let draws = Draws { n: n, last: seed };
    draws.draw_blocks(count as usize, blocks, output);
    Ok(tape_length)
}
