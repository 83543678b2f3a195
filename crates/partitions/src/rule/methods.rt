// Making a rule.
ghost use Rattle.std.specs.Prelude.{◌≡◌};
ghost use Rattle.lattice.specs.Faults.{shape_refusal};
ghost use Rattle.lattice.specs.Shapes.{shape_answer};
ghost use Rattle.partitions.specs.Partitions.{SixStates, partitions_extent};
ghost use Rattle.refusal.specs.Refusals.{answer};

use super::Partitions;
use lattice::fault::ShapeFault;
use lattice::shape::Shape;

impl Partitions {
    pub const LARGEST_CAP: u8 = 255;

    // The rule for plane partitions with these sides and heights up to the cap.
    pub fn new(rows: u64, columns: u64, cap: u64) -> Result<Partitions, ShapeFault>
        ensures { answer partitions_extent shape_refusal result ≡ shape_answer rows columns «cap» 255 }
    {
        let shape = Shape::new(rows, columns, cap, Self::LARGEST_CAP)?;
        Ok(Partitions { shape })
    }

    // The rule for 2 by 2 with cap 1, which has six lawful states.
    pub fn two_by_two_with_cap_one() -> Result<Partitions, ShapeFault>
        ensures { SixStates (answer partitions_extent shape_refusal result) }
    {
        Partitions::new(2, 2, 1)
    }
}
