// The refusals of threshold tables and of rules made from numbers. specs/Faults.antt has their numbers.
ghost use Rattle.std.specs.Prelude.{◌≡◌};
ghost use Rattle.spins.specs.Faults.{spins_refusal, table_refusal};
ghost use Rattle.spins.specs.declared.fault.SpinsFault.TheVariants.{Shape, Table};

use lattice::fault::ShapeFault;
use refusal::Cause;
use std::alloc::AllocError;

// Why nine numbers are no threshold table.
#[derive(Clone, Copy, Debug, PartialEq)]
pub enum TableFault {
    // A threshold above 2^32.
    Above { index: usize },
    // A threshold below the one before it.
    Falls { index: usize },
}

impl Cause for TableFault {
    ghost refusal = { table_refusal };

    fn tell(&self, numbers: &mut Vec<u64>) -> Result<(), AllocError> {
        match self {
            TableFault::Above { index } => numbers.extend_from_slice(&[3, *index as u64]),
            TableFault::Falls { index } => numbers.extend_from_slice(&[4, *index as u64]),
        }
    }
}

// Why numbers are no rule for spin grids.
#[derive(Clone, Copy, Debug, PartialEq)]
pub enum SpinsFault {
    Shape(ShapeFault),
    Table(TableFault),
}

impl From<ShapeFault> for SpinsFault {
    ghost from_gives = { λ e r. r ≡ Shape e };

    fn from(fault: ShapeFault) -> SpinsFault {
        SpinsFault::Shape(fault)
    }
}

impl From<TableFault> for SpinsFault {
    ghost from_gives = { λ e r. r ≡ Table e };

    fn from(fault: TableFault) -> SpinsFault {
        SpinsFault::Table(fault)
    }
}

impl Cause for SpinsFault {
    ghost refusal = { spins_refusal };

    fn tell(&self, numbers: &mut Vec<u64>) -> Result<(), AllocError> {
        match self {
            SpinsFault::Shape(cause) => cause.tell(numbers),
            SpinsFault::Table(cause) => cause.tell(numbers),
        }
    }
}
