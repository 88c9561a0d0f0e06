// Whether an image is sound, and what one walk over its records finds, sound or not: the survey call. Document 01, "The
// image", its paragraph on soundness; document 02, A.3.
#![tactic(auto)]

ghost use Rattle.std.specs.Prelude.{◌≡◌, ◌+◌, ◌*◌, ◌/◌, ◌%◌, ◌≤◌, length, eqb};
ghost use Rattle.machine.specs.Bytes.{number};
ghost use Rattle.machine.specs.Image.{size_in};
ghost use Rattle.machine.specs.Refusals.{front_verdict, sound_verdict, image_verdict};
ghost use Rattle.machine.specs.Survey.{survey_answer};
ghost use Rattle.sound.specs.Walk.{Walked};
ghost use Rattle.machine.specs.Answers.{in_numbers};
ghost use Rattle.sound.specs.Survey.{values_of, findings_in};

use image::Ring;
use little_endian::Word;
use machine::{Answer, Refusal, Verdict};
use numbers::Values;
use walk::Walk;

pub mod walk;

// What a survey finds: the verdict of soundness, how many have and arriving flags are set, and the sets of the
// processes marked for full and for empty, whose digit i is process i.
#[derive(Clone, Copy, Debug, PartialEq, Eq)]
pub struct Findings {
    pub verdict: Verdict,
    pub flags: u64,
    pub full: u64,
    pub empty: u64,
}

impl Values for Findings {
    ghost values = { values_of };

    fn words(self) -> [u64; 10] {
        let (number, place) = match self.verdict {
            Ok(()) => (0, 0),
            Err(refusal) => (refusal.number(), refusal.place() as u64),
        };
        [
            number, place, self.flags, self.full, self.empty, 0, 0, 0, 0, 0,
        ]
    }
}

// The bits of the header's first word that no rule names, up to the markers.
const UNNAMED: u64 = 0xFC_FE00;

// Whether an image is sound, from its header and a walk over its records: refused with 4 where it isn't. Both counts
// and the zeros behind them are one compare.
#[tactic(auto, using(crate::proofs::Whole::each_test))]
fn sound_verdict(image: &[u8], n: usize, walk: Walk) -> Verdict
    requires { (n ≡ size_in image.now) × (n ≤ 64) × (16 + 8 * n ≤ length image.now)
        × Walked image.now (eqb (number image.now 0 8 / 256 % 2) 1) 0 n walk }
    ensures { result ≡ sound_verdict image.now }
{
    let first = u64::read_at(image, 0);
    if first & UNNAMED != 0 {
        return Err(Refusal::Unsound);
    }
    if first / 0x100 % 2 * 0xFFFF_FFFF < u64::read_at(image, 8) {
        return Err(Refusal::Unsound);
    }
    if walk.first != n {
        return Err(Refusal::Unsound);
    }
    if !walk.stages_stand() {
        return Err(Refusal::Unsound);
    }
    if walk.flags() != 1 {
        return Err(Refusal::Unsound);
    }
    let miscounted = walk.counts() != first / 0x100_0000;
    if miscounted {
        return Err(Refusal::Unsound);
    }
    Ok(())
}

// What is found in an image that has room for its records: every call that tests an image comes here.
#[tactic(auto, using(machine::proofs::Laws::Refusals::front_fine))]
fn found(image: &[u8]) -> Findings
    requires { front_verdict image.now ≡ Ok tt }
    ensures { result ≡ findings_in image.now }
{
    let n = usize::from(image[0]);
    let walk = Walk::over(image, u64::read_at(image, 0) / 0x100 % 2, n);
    let verdict = sound_verdict(image, n, walk);
    Findings {
        verdict: verdict,
        flags: walk.flags(),
        full: walk.full,
        empty: walk.empty,
    }
}

// Internal: an image's verdict before its bytes are looked at: refused with 3 for its length, 4 for byte 0.
#[tactic(auto, using(crate::proofs::Ways::front_tests))]
pub fn front_verdict(image: &[u8]) -> Verdict
    ensures { result ≡ front_verdict image.now }
{
    if image.len() < 16 {
        return Err(Refusal::Short);
    }
    let n = usize::from(image[0]);
    let too_few = n < Ring::LEAST;
    if too_few {
        return Err(Refusal::Unsound);
    }
    let too_many = Ring::MOST < n;
    if too_many {
        return Err(Refusal::Unsound);
    }
    if image.len() < 16 + 8 * n {
        return Err(Refusal::Short);
    }
    Ok(())
}

// Internal: an image's verdict: that, then whether it is sound.
#[tactic(auto, unfolding(crate::specs::Survey::findings_in, machine::specs::Refusals::image_verdict))]
pub fn image_verdict(image: &[u8]) -> Verdict
    ensures { result ≡ image_verdict image.now }
{
    let verdict = front_verdict(image);
    let Ok(()) = verdict else {
        return verdict;
    };
    let findings = found(image);
    let sound = findings.verdict;
    sound
}

// The survey call: what one walk over the records finds, sound or not; or the refusal of an image that can't be walked
// over: 3 for its length, 4 for byte 0.
#[tactic(auto, using(crate::proofs::Ways::survey_done, crate::proofs::Ways::survey_refused))]
pub fn survey(image: &[u8]) -> Answer<Findings>
    ensures { in_numbers values_of result ≡ survey_answer image.now }
{
    let verdict = front_verdict(image);
    let Ok(()) = verdict else {
        return Err(verdict.unwrap_err());
    };
    let findings = found(image);
    Ok(findings)
}
