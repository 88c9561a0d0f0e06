// The result slice of the suite's host: ten 64-bit words from its start. Document 01, "The tape", the sentences on the
// suite's host.
#![tactic(auto)]

ghost use Rattle.std.specs.Prelude.{◌≡◌, ◌≤◌, length};
ghost use Rattle.machine.specs.Bytes.{bytes, splice};
ghost use Rattle.machine.specs.Refusals.{number_of};
ghost use Rattle.machine.specs.Answers.{in_numbers};
ghost use Rattle.machine.specs.Host.{words_of, result_bytes};
ghost use Rattle.numbers.specs.Verdicts.{refusal_of};

use machine::{Answer, Verdict};
use numbers::{Values, refusal_of};
use span::put;

// A result slice has at least so many bytes: a call lends an array of the first of them, so that their number is the
// type's. One function for all the calls would take two closures, the tests' and the call's, and both would borrow the
// image at once; so they share `reply` and `short`.
pub const ROOM: usize = 80;

// A word's eight bytes, the lowest first. With a clause of its own, so that a wrong word is refused here, by its value.
fn eight(word: u64) -> [u8; 8]
    ensures { result ≡ bytes 8 word }
{
    word.to_le_bytes()
}

// Internal: ten words, the lowest byte of each first, written over the first 80 bytes.
pub fn tell(res: &mut [u8], words: &[u64; 10])
    requires { 80 ≤ length res.old }
    ensures { res.new ≡ splice res.old 0 (words_of words.now) }
{
    put(res, 0, words.map(eight).as_flattened());
}

// Internal: a call's answer told: what it is done with, and 0 returned; or the refusal's place, and its number
// returned.
pub fn reply<T: Values>(res: &mut [u8; ROOM], answer: Answer<T>) -> u64
    ensures number { result ≡ (in_numbers T.values answer).number }
    ensures told { res.new ≡ result_bytes (in_numbers T.values answer).values }
    ensures room { length res.new ≡ 80 }
{
    let Ok(done) = answer else {
        let refusal = answer.unwrap_err();
        tell(res, &refusal.place().words());
        return refusal.number();
    };
    tell(res, &done.words());
    0
}

// Internal: the number returned by a call whose result slice is too short, by the verdict of its tests: its refusal,
// else 10.
pub fn short(verdict: Verdict) -> u64
    ensures { result ≡ number_of (refusal_of verdict) }
{
    refusal_of(verdict).number()
}
