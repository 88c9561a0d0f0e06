// What a call's answer tells in the documents' numbers: the values of what it is done with, and the refusal that a
// verdict comes to. Document 01, "The tape", the sentences on the suite's host, and "Where a call is turned down".
#![tactic(auto)]

ghost use Rattle.std.specs.Prelude.{◌≡◌, ℕ, List, [], ◌∷◌, ◌++◌, ◌-◌, ◌≤◌, length, replicate};
ghost use Rattle.machine.specs.Bytes.{bit};
ghost use Rattle.numbers.specs.Verdicts.{refusal_of};
ghost use Rattle.numbers.specs.Values.{none, one, of_bool, InTen};

use machine::{Refusal, Verdict};

// What a call is done with has values, ten words at most, in the documents' order.
pub trait Values: Copy {
    ghost values: { Self → List ℕ };

    // Internal: the values, and words of 0 after them.
    fn words(self) -> [u64; 10]
        ensures { InTen (values self) result };
}

// A call that has nothing to tell.
impl Values for () {
    ghost values = { none };

    fn words(self) -> [u64; 10] {
        [0; 10]
    }
}

// How many bytes a call filled.
impl Values for usize {
    ghost values = { one };

    fn words(self) -> [u64; 10] {
        [self as u64, 0, 0, 0, 0, 0, 0, 0, 0, 0]
    }
}

// Yes is 1, no is 0.
impl Values for bool {
    ghost values = { of_bool };

    fn words(self) -> [u64; 10] {
        usize::from(self).words()
    }
}

// Internal: a verdict's refusal. Where its tests refuse nothing it is 10, which comes last: a call is refused so whose
// result slice is too short.
pub fn refusal_of(verdict: Verdict) -> Refusal
    ensures { result ≡ refusal_of verdict }
{
    match verdict {
        Ok(()) => Refusal::Output,
        Err(refusal) => refusal,
    }
}
