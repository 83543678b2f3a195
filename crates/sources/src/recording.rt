// Recordings: words read out of borrowed bytes, each from eight of them in big-endian order.
ghost use Rattle.std.specs.Prelude.{◌≡◌};
ghost use Rattle.sources.specs.Recordings.{big_endian, recording_reading};

mod methods;

use crate::fault::NoWord;
use crate::source::Source;

#[derive(Clone, Copy, Debug)]
pub struct Recording<'a> {
    bytes: &'a [u8],
}

impl Source for Recording<'_> {
    type Fault = NoWord;

    ghost reading = { λ r. recording_reading r.bytes.now };

    fn depth(&self) -> u64 {
        self.bytes.len() as u64 / 8
    }

    fn word(&self, place: u64) -> Result<u64, NoWord> {
        NoWord::unless_among(place, self.depth())?;
        let (words, _) = self.bytes.as_chunks::<8>();
        Ok(word_of(words[place as usize - 1]))
    }

    fn sound(&self) {}
}

// The word that eight bytes write.
fn word_of(bytes: [u8; 8]) -> u64
    ensures { result ≡ big_endian bytes }
{
    u64::from_be_bytes(bytes)
}
