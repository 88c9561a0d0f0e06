// The writer and reader calls: a list of event bytes made into a tape, and a tape read back. Document 01, "The tape".
#![tactic(auto)]

ghost use Rattle.std.specs.Prelude.{◌≡◌};
ghost use Rattle.machine.specs.Refusals.{or_else, codes, size_verdict, list_verdict, tape_verdict};
ghost use Rattle.machine.specs.Answers.{in_numbers, write_answer, write_output, read_answer, read_output};
ghost use Rattle.numbers.specs.Values.{one};

use event::Event;
use image::Ring;
use machine::{Answer, Refusal, Verdict};
use pack::{blocks_for, pack, unpack};
use tape_test::{event_count, list_verdict, tape_verdict};

// Internal: the verdict of what the writer is given: 1 for n, 6 for the list's length, 5 for an event. The output's
// stands apart. It mirrors its own rule, and the reader's another (`step::step_verdict`).
#[tactic(auto, unfolding(machine::specs::Refusals::size_verdict))]
pub fn write_verdict(n: u64, list: &[u8]) -> Verdict
    ensures { result ≡ or_else (size_verdict n) (list_verdict codes n list.now) }
{
    if !Ring::fits(n) {
        return Err(Refusal::Size);
    }
    list_verdict(list, n as usize, Event::CODES)
}

// The writer call: the tape of a list of event bytes for n processes, at the start of the output, whose further bytes
// stay; or the refusal of its inputs' verdict, or 10 for the output.
#[tactic(auto, using(crate::proofs::Writer::write_events))]
pub fn write(n: u64, list: &[u8], output: &mut [u8]) -> Answer<usize>
    ensures answer { in_numbers one result ≡ write_answer n list.now output.old }
    ensures buffer { output.new ≡ write_output n list.now output.old }
{
    let verdict = write_verdict(n, list);
    let Ok(()) = verdict else {
        return Err(verdict.unwrap_err());
    };
    let blocks = blocks_for(list.len() / 8);
    let tape_length = 512 * blocks;
    if output.len() < tape_length {
        return Err(Refusal::Output);
    }
    pack(list, blocks, output);
    Ok(tape_length)
}

// Internal: the verdict of what the reader is given: 1 for n, 6 for the tape's length, block by block 7, 8, 5 and 9.
// The output's stands apart.
#[tactic(auto, unfolding(machine::specs::Refusals::size_verdict))]
pub fn read_verdict(n: u64, tape: &[u8]) -> Verdict
    ensures { result ≡ or_else (size_verdict n) (tape_verdict codes n tape.now) }
{
    if !Ring::fits(n) {
        return Err(Refusal::Size);
    }
    tape_verdict(tape, n as usize, Event::CODES)
}

// The reader call: the list of event bytes of a tape for n processes, at the start of the output, whose further bytes
// stay; or the refusal of its inputs' verdict, or 10 for the output.
#[tactic(auto, using(crate::proofs::Reader::read_accepted, crate::proofs::Reader::read_blocks))]
pub fn read(n: u64, tape: &[u8], output: &mut [u8]) -> Answer<usize>
    ensures answer { in_numbers one result ≡ read_answer n tape.now output.old }
    ensures buffer { output.new ≡ read_output n tape.now output.old }
{
    let verdict = read_verdict(n, tape);
    let Ok(()) = verdict else {
        return Err(verdict.unwrap_err());
    };
    let events = event_count(tape);
    let list_length = 8 * events;
    if output.len() < list_length {
        return Err(Refusal::Output);
    }
    unpack(tape, tape.len() / 512, output, list_length);
    Ok(list_length)
}
