// Making a rule.
ghost use Rattle.std.specs.Prelude.{◌≡◌};
ghost use Rattle.lattice.specs.Faults.{shape_refusal};
ghost use Rattle.lattice.specs.Shapes.{shape_answer};
ghost use Rattle.refusal.specs.Refusals.{answer};
ghost use Rattle.spins.specs.Faults.{RuleAnswers, spins_refusal, with_table};
ghost use Rattle.spins.specs.Spins.{rule_parts, table_of};

use super::Spins;
use crate::fault::SpinsFault;
use crate::thresholds::{NineThresholds, Thresholds};
use lattice::fault::ShapeFault;
use lattice::shape::Shape;

impl Spins {
    // The only cap of spin grids.
    pub const CAP: u8 = 1;

    // The rule for grids of these sides, with this table.
    pub fn new(
        rows: u64,
        columns: u64,
        cap: u64,
        thresholds: Thresholds,
    ) -> Result<Spins, ShapeFault>
        ensures { answer rule_parts shape_refusal result ≡ with_table (table_of thresholds) (shape_answer rows columns «cap» 1) }
    {
        let shape = Shape::new(rows, columns, cap, Self::CAP)?;
        Ok(Spins { shape, thresholds })
    }

    // The same from plain numbers: sides and cap are tested before the thresholds.
    pub fn from_numbers(
        rows: u64,
        columns: u64,
        cap: u64,
        values: NineThresholds,
    ) -> Result<Spins, SpinsFault>
        ensures { RuleAnswers (shape_answer rows columns «cap» 1) values (answer rule_parts spins_refusal result) }
    {
        let shape = Shape::new(rows, columns, cap, Spins::CAP)?;
        let thresholds = Thresholds::new(values)?;
        Ok(Spins { shape, thresholds })
    }
}
