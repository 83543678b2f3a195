// Making a counter generator, and the word that seed zero begins with.
ghost use Rattle.std.specs.Prelude.{◌≡◌, Ok};
ghost use Rattle.sources.specs.Readings.{counter_says};
ghost use Rattle.sources.specs.SplitMix.{counter_reading};

use super::Counter;
use crate::fault::NoWord;
use crate::source::Source;

impl Counter {
    pub fn new(seed: u64) -> Counter
        ensures reading { counter_says result ≡ counter_reading seed }
        ensures seed { result.seed ≡ seed }
    {
        Counter { seed }
    }

    // The word that published listings of SplitMix64 begin with.
    pub fn first_word_of_seed_zero() -> Result<u64, NoWord>
        ensures { result ≡ Ok 0xE220A8397B1DCDAF }
    {
        Counter::new(0).word(1)
    }
}
