// What ringrun writes, as a function of its whole input. Document 01, "The tape", its last paragraph.
#![tactic(auto)]

ghost use Rattle.std.specs.Prelude.{◌≡◌, ◌≤◌, ◌<◌, length, get_or, Ok};
ghost use Rattle.machine.specs.Image.{size_in, state_in};
ghost use Rattle.machine.specs.Refusals.{codes, image_verdict, tape_verdict};
ghost use Rattle.machine.specs.Answers.{in_numbers, run_events};
ghost use Rattle.machine.specs.Report.{tape_given, ran_text, text_by, report_text, report_answer, report_output};
ghost use Rattle.numbers.specs.Values.{one};
ghost use Rattle.text.specs.Puts.{HasRoom, Puts};

use image::Ring;
use lines::{put_ran, put_refusal};
use machine::{Answer, Refusal};
use run::run;
use stopped::stopped;
use text::Page;

// N, home and 64 blocks: ringrun accepts no more bytes than these.
pub const MOST_INPUT: usize = 32770;

// No text has more bytes: 4,032 lines of at most 31, and two more of at most 183 and 8.
pub const MOST_TEXT: usize = 125183;

// Byte k of the input, 0 where it is missing.
fn given(input: &[u8], k: usize) -> u64
    ensures { (result ≡ get_or input.now k 0) × (result < 256) }
{
    u64::from(input.get(k).copied().unwrap_or(0))
}

// The tape behind N and home: empty in a shorter input.
fn tape_in(input: &[u8]) -> &[u8]
    ensures { result.now ≡ tape_given input.now }
{
    input.get(2..).unwrap_or(&[])
}

// The text of a tape of at most 64 blocks, performed from an image that is known to be sound. The ledger has room for
// their 4,032 records of 12 bytes.
fn run_text(image: &mut [u8], tape: &[u8], page: &mut Page<'_>)
    requires { (image_verdict image.old ≡ Ok tt) × (length tape.now ≤ 32768)
        × HasRoom page.old 125183 }
    ensures { Puts page.old
        (text_by (tape_verdict codes (size_in image.old) tape.now)
        (ran_text (state_in image.old) (run_events tape.now)))
        page.new }
{
    let mut ledger = [0; 48384];
    let ran = run(image, tape, &mut ledger);
    let Ok(played) = ran else {
        return put_refusal(page, ran.unwrap_err());
    };
    let at_rest = stopped(image);
    let Ok(stopped) = at_rest else {
        return put_refusal(page, at_rest.unwrap_err());
    };
    put_ran(page, &ledger, played.counts, stopped)
}

// The text of any input.
fn whole_text(input: &[u8], page: &mut Page<'_>)
    requires { HasRoom page.old 125183 }
    ensures { Puts page.old (report_text input.now) page.new }
{
    let mut image = [0; 528];
    let fresh = Ring::fresh(given(input, 0), given(input, 1), &mut image);
    let Ok(()) = fresh else {
        return put_refusal(page, fresh.unwrap_err());
    };
    let too_long = MOST_INPUT < input.len();
    if too_long {
        return put_refusal(page, Refusal::Length);
    }
    run_text(&mut image, tape_in(input), page)
}

// The report call: the text that ringrun writes for an input, at the start of the output, whose further bytes stay.
// Refused with 10 for an output that is too short, and never for one of MOST_TEXT bytes; whatever is wrong with the
// input is told by the text.
pub fn report(input: &[u8], output: &mut [u8]) -> Answer<usize>
    ensures answer { in_numbers one result ≡ report_answer input.now output.old }
    ensures buffer { output.new ≡ report_output input.now output.old }
    ensures room { 125183 ≤ length output.old → (in_numbers one result).number ≡ 0 }
{
    let mut bytes = [0; MOST_TEXT];
    let mut page = Page::new(&mut bytes);
    whole_text(input, &mut page);
    let end = page.end;
    if output.len() < end {
        return Err(Refusal::Output);
    }
    output[..end].copy_from_slice(&bytes[..end]);
    Ok(end)
}
