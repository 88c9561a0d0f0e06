// The ring type: its sizes, the neighbours of a process, and the fresh ring call.
#![tactic(auto)]

ghost use Rattle.std.specs.Prelude.{◌≡◌, ◌<◌};
ghost use Rattle.machine.specs.Ring as rule;
ghost use Rattle.machine.specs.Answers.{in_numbers, fresh_verdict, fresh_answer, fresh_image};
ghost use Rattle.numbers.specs.Values.{none};

use machine::{Answer, Refusal, Verdict};
use span::clear;

// A ring of so many processes, numbered from 0.
#[derive(Clone, Copy)]
pub struct Ring {
    pub size: usize,
}

impl Ring {
    // A ring has 2 to 64 processes.
    pub const LEAST: usize = 2;

    pub const MOST: usize = 64;

    // Internal: whether a ring may have n processes.
    pub fn fits(n: u64) -> bool
        ensures { result ≡ rule.size_fits n }
    {
        (Ring::LEAST as u64 <= n) & (n <= Ring::MOST as u64)
    }

    // Internal: the fresh ring's verdict: 1 for n, 2 for home, 3 for the buffer. It mirrors its own rule.
    #[tactic(auto, using(crate::proofs::Laws::fresh_tests))]
    pub fn fresh_verdict(n: u64, home: u64, image: &[u8]) -> Verdict
        ensures { result ≡ fresh_verdict n home image.now }
    {
        if !Ring::fits(n) {
            return Err(Refusal::Size);
        }
        if n <= home {
            return Err(Refusal::Home);
        }
        if image.len() < 16 + 8 * n as usize {
            return Err(Refusal::Short);
        }
        Ok(())
    }

    // The fresh ring call: an image of n processes that is all zero but for n and for the envelope at home, at the
    // start of a buffer whose further bytes stay; or the refusal of its verdict.
    #[tactic(auto, using(machine::proofs::Laws::Refusals::fresh_fine))]
    pub fn fresh(n: u64, home: u64, image: &mut [u8]) -> Answer<()>
        ensures answer { in_numbers none result ≡ fresh_answer n home image.old }
        ensures buffer { image.new ≡ fresh_image n home image.old }
    {
        let verdict = Ring::fresh_verdict(n, home, image);
        let Ok(()) = verdict else {
            return verdict;
        };
        let count = 16 + 8 * n as usize;
        let at = 16 + 8 * home as usize;
        clear(image, 0, count);
        image[0] = n as u8;
        image[at + 1] = 1;
        Ok(())
    }

    // Internal: the process to the left of i, where requests go.
    pub fn left(self, i: usize) -> usize
        requires { i < self.size }
        ensures { result ≡ rule.left self.size i }
    {
        if i == 0 { self.size - 1 } else { i - 1 }
    }

    // Internal: the process to the right of i, where the envelope goes.
    pub fn right(self, i: usize) -> usize
        requires { i < self.size }
        ensures { result ≡ rule.right self.size i }
    {
        if i + 1 == self.size { 0 } else { i + 1 }
    }
}
