// Making a threshold table, and reading it.
ghost use Rattle.std.specs.Prelude.{◌≡◌, slice_index};
ghost use Rattle.refusal.specs.Refusals.{answer};
ghost use Rattle.spins.specs.Faults.{TableAnswers, table_refusal};
ghost use Rattle.spins.specs.Spins.{table_of};

use super::{NineThresholds, Thresholds};
use crate::fault::TableFault;

const HIGHEST: u64 = 1 << 32;

impl Thresholds {
    // The table of these thresholds, tested index by index.
    pub fn new(values: NineThresholds) -> Result<Thresholds, TableFault>
        ensures { TableAnswers values (answer table_of table_refusal result) }
    {
        let mut before = 0;
        for (index, value) in values.iter().enumerate() {
            if *value > HIGHEST {
                return Err(TableFault::Above { index });
            }
            if *value < before {
                return Err(TableFault::Falls { index });
            }
            before = *value;
        }
        Ok(Thresholds { values })
    }

    // The threshold at an index, 0 past the last one.
    pub fn at(&self, index: usize) -> u64
        ensures { result ≡ slice_index (table_of self.now) index }
    {
        self.values.get(index).copied().unwrap_or(0)
    }
}
