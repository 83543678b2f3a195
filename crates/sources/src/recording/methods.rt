// Making a recording of bytes.
ghost use Rattle.std.specs.Prelude.{◌≡◌, IfOk};
ghost use Rattle.refusal.specs.Refusals.{answer};
ghost use Rattle.sources.specs.Faults.{recording_refusal};
ghost use Rattle.sources.specs.Readings.{recording_says};
ghost use Rattle.sources.specs.Recordings.{recording_answer};

use super::Recording;
use crate::fault::RecordingFault;

impl<'a> Recording<'a> {
    // From 1 to 2^20 words, each of them whole.
    pub fn new(bytes: &'a [u8]) -> Result<Recording<'a>, RecordingFault>
        ensures reading { answer recording_says recording_refusal result ≡ recording_answer bytes.now }
        ensures bytes { IfOk result (λ x. x.bytes.now ≡ bytes.now) }
    {
        let length = bytes.len() as u64;
        if length == 0 || length > 8_388_608 || length % 8 != 0 {
            return Err(RecordingFault { length });
        }
        Ok(Recording { bytes })
    }
}
