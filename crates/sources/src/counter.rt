// The counter generator: the word at a place is SplitMix64's mixing of a counter that grows by one step a place.
ghost use Rattle.std.specs.Prelude.{◌≡◌};
ghost use Rattle.sources.specs.SplitMix.{counter_reading, mixed};

mod methods;

use crate::fault::NoWord;
use crate::source::Source;

// The counter's step: the odd number next to 2^64 over the golden ratio.
const GAMMA: u64 = 0x9E37_79B9_7F4A_7C15;

#[derive(Clone, Copy, Debug)]
pub struct Counter {
    seed: u64,
}

impl Source for Counter {
    type Fault = NoWord;

    ghost reading = { λ c. counter_reading c.seed };

    fn depth(&self) -> u64 {
        1 << 40
    }

    fn word(&self, place: u64) -> Result<u64, NoWord> {
        NoWord::unless_among(place, self.depth())?;
        Ok(mix(self.seed.wrapping_add(place.wrapping_mul(GAMMA))))
    }

    fn sound(&self) {}
}

// The three mixing steps that make a word of a counter.
pub fn mix(z: u64) -> u64
    ensures { result ≡ mixed z }
{
    let z = (z ^ (z >> 30)).wrapping_mul(0xBF58_476D_1CE4_E5B9);
    let z = (z ^ (z >> 27)).wrapping_mul(0x94D0_49BB_1331_11EB);
    z ^ (z >> 31)
}
