// Making a rule.
ghost use Rattle.std.specs.Prelude.{◌≡◌};
ghost use Rattle.independent_sets.specs.Sets.{SevenStates, rule_extent};
ghost use Rattle.lattice.specs.Faults.{shape_refusal};
ghost use Rattle.lattice.specs.Shapes.{shape_answer};
ghost use Rattle.refusal.specs.Refusals.{answer};

use super::IndependentSets;
use lattice::fault::ShapeFault;
use lattice::shape::Shape;

impl IndependentSets {
    // The only cap of independent sets.
    pub const CAP: u8 = 1;

    // The rule for grids of these sides.
    pub fn new(rows: u64, columns: u64, cap: u64) -> Result<IndependentSets, ShapeFault>
        ensures { answer rule_extent shape_refusal result ≡ shape_answer rows columns «cap» 1 }
    {
        let shape = Shape::new(rows, columns, cap, Self::CAP)?;
        Ok(IndependentSets { shape })
    }

    // The rule for 2 by 2, which has seven lawful states.
    pub fn two_by_two() -> Result<IndependentSets, ShapeFault>
        ensures { SevenStates (answer rule_extent shape_refusal result) }
    {
        IndependentSets::new(2, 2, 1)
    }
}
