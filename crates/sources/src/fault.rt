// The refusals of sources. specs/Faults.antt has their numbers.
ghost use Rattle.std.specs.Prelude.{◌≡◌, ◌<◌, ◌≤◌, ◌⊎◌, MatchResult};
ghost use Rattle.refusal.specs.Refusals.{answer};
ghost use Rattle.sources.specs.Faults.{no_word_refusal, recording_refusal};
ghost use Rattle.sources.specs.Sources.{place_answer};

use refusal::Cause;
use std::alloc::AllocError;

// The source has no word at the place.
#[derive(Clone, Copy, Debug, PartialEq, Eq)]
pub struct NoWord {
    pub place: u64,
    pub depth: u64,
}

impl NoWord {
    // Refuses a place that is not one of the places 1 to depth.
    pub(crate) fn unless_among(place: u64, depth: u64) -> Result<(), NoWord>
        ensures answers { answer (λ u. u) no_word_refusal result ≡ place_answer place depth }
        ensures bounds { MatchResult result (λ u. (1 ≤ place) × (place ≤ depth)) (λ e. (e.place ≡ place) × (e.depth ≡ depth) × ((place ≡ 0) ⊎ (depth < place))) }
    {
        if (1..=depth).contains(&place) {
            Ok(())
        } else {
            Err(NoWord { place, depth })
        }
    }
}

// Bytes of this length make no recording.
#[derive(Clone, Copy, Debug, PartialEq, Eq)]
pub struct RecordingFault {
    pub length: u64,
}

impl Cause for NoWord {
    ghost refusal = { no_word_refusal };

    fn tell(&self, numbers: &mut Vec<u64>) -> Result<(), AllocError> {
        numbers.extend_from_slice(&[12, self.place, self.depth])
    }
}

impl Cause for RecordingFault {
    ghost refusal = { recording_refusal };

    fn tell(&self, numbers: &mut Vec<u64>) -> Result<(), AllocError> {
        numbers.extend_from_slice(&[11, self.length])
    }
}
