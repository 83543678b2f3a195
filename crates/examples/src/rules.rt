// Rules: sides, caps and threshold tables.
use crate::proved::frozen_spins;
use crate::say::{Failed, say};
use independent_sets::rule::IndependentSets;
use partitions::rule::Partitions;
use spins::rule::Spins;
use spins::thresholds::Thresholds;

// A table with all thresholds 0.
pub const FLAT: [u64; 9] = [0; 9];

// The largest threshold.
const TOP: u64 = 1 << 32;

const TABLES: [(&str, [u64; 9]); 5] = [
    ("threshold 4294967296", [TOP; 9]),
    ("threshold 4294967297", [0, 0, 0, 0, 0, 0, 0, 0, TOP + 1]),
    ("a table that falls at 1", [5, 4, 9, 9, 9, 9, 9, 9, 9]),
    (
        "a table that falls at 2, above at 5",
        [5, 6, 5, 9, 9, TOP + 1, 9, 9, 9],
    ),
    (
        "a table above at 2, falls at 5",
        [5, 6, TOP + 1, 9, 9, 8, 9, 9, 9],
    ),
];

pub fn show(rt: &HostRuntime) -> Result<(), Failed> {
    say(rt, "sides 32 by 32", Spins::from_numbers(32, 32, 1, FLAT))?;
    say(rt, "sides 33 by 32", Spins::from_numbers(33, 32, 1, FLAT))?;
    say(rt, "sides 32 by 33", Spins::from_numbers(32, 33, 1, FLAT))?;
    say(rt, "sides 0 by 1", Spins::from_numbers(0, 1, 1, FLAT))?;
    say(rt, "cap 0", Spins::from_numbers(1, 1, 0, FLAT))?;
    say(rt, "cap 2", Spins::from_numbers(1, 1, 2, FLAT))?;
    say(rt, "sides before cap", Spins::from_numbers(33, 1, 2, FLAT))?;
    let over = [0, 0, 0, 0, 0, 0, 0, 0, TOP + 1];
    say(
        rt,
        "cap before thresholds",
        Spins::from_numbers(1, 1, 2, over),
    )?;
    say(rt, "frozen spins", frozen_spins())?;
    caps(rt)?;
    for (what, table) in TABLES {
        say(rt, what, Thresholds::new(table))?;
    }
    Ok(())
}

// The largest cap of each kind, and one more.
fn caps(rt: &HostRuntime) -> Result<(), Failed> {
    say(rt, "partitions with cap 255", Partitions::new(32, 32, 255))?;
    say(rt, "partitions with cap 256", Partitions::new(32, 32, 256))?;
    say(rt, "partitions with cap 0", Partitions::new(32, 32, 0))?;
    say(
        rt,
        "partitions 33 by 1 with cap 256",
        Partitions::new(33, 1, 256),
    )?;
    say(rt, "sets with cap 1", IndependentSets::new(32, 32, 1))?;
    say(rt, "sets with cap 2", IndependentSets::new(32, 32, 2))
}
