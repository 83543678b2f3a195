// One word gives a site and a level, for any number of cells.
ghost use Rattle.std.specs.Prelude.{◌≡◌, ◌*◌, ◌/◌, ◌^◌, ◌<◌};
ghost use Rattle.lattice.specs.Words.{site, level};

// How many values half a word has.
const HALF: u64 = 1 << 32;

// Half of all levels lie below this one.
pub const MIDDLE_LEVEL: u32 = 1 << 31;

// The cell that the word chooses among `cells`, and its level.
pub fn split(word: u64, cells: u32) -> (u32, u32)
    ensures pair { result ≡ (site cells word, level word) }
    ensures within { 0 < cells → result.0 < cells }
{
    let high = (word / HALF) as u32;
    let low = (word % HALF) as u32;
    (scaled(high, cells), low)
}

// A number below 2^32, scaled to the numbers below `cells`.
fn scaled(high: u32, cells: u32) -> u32
    ensures value { result ≡ high * cells / 2 ^ 32 }
    ensures within { 0 < cells → result < cells }
{
    (u64::from(high) * u64::from(cells) / HALF) as u32
}
