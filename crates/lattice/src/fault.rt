// The refusals of rules and states. specs/Faults.antt has their numbers.
ghost use Rattle.std.specs.Prelude.{◌≡◌};
ghost use Rattle.lattice.specs.Faults.{shape_refusal, state_refusal};
ghost use Rattle.lattice.specs.declared.fault.StateFault.TheVariants.{Memory};

use refusal::Cause;
use std::alloc::{AllocError, AllocFailed};

// Why sides and a cap make no rule.
#[derive(Clone, Copy, Debug, PartialEq, Eq)]
pub enum ShapeFault {
    // A side is 0 or above 32.
    Side,
    // The kind does not allow the cap.
    Cap,
}

// Why a call on a state is refused.
#[derive(Clone, Copy, Debug, PartialEq, Eq)]
pub enum StateFault {
    // The state's sides or cap are not the rule's.
    Foreign,
    // No cell has that number.
    NoCell,
    // Fewer bytes than cells.
    FewCells,
    // The cells up to this one begin no lawful state.
    Unlawful { cell: usize },
    // No memory was found for a state.
    Memory,
}

impl From<AllocError> for StateFault {
    ghost from_gives = { λ _ r. r ≡ Memory };

    fn from(_error: AllocError) -> StateFault {
        Self::Memory
    }
}

impl<T: Drop> From<AllocFailed<T>> for StateFault {
    ghost from_gives = { λ _ r. r ≡ Memory };

    fn from(failed: AllocFailed<T>) -> StateFault {
        AllocError::from(failed).into()
    }
}

impl Cause for ShapeFault {
    ghost refusal = { shape_refusal };

    fn tell(&self, numbers: &mut Vec<u64>) -> Result<(), AllocError> {
        match self {
            ShapeFault::Side => numbers.push(1)?,
            ShapeFault::Cap => numbers.push(2)?,
        }
        Ok(())
    }
}

impl Cause for StateFault {
    ghost refusal = { state_refusal };

    fn tell(&self, numbers: &mut Vec<u64>) -> Result<(), AllocError> {
        match self {
            StateFault::Foreign => numbers.push(5)?,
            StateFault::NoCell => numbers.push(6)?,
            StateFault::FewCells => numbers.push(37)?,
            StateFault::Unlawful { cell } => numbers.extend_from_slice(&[39, *cell as u64])?,
            StateFault::Memory => {}
        }
        Ok(())
    }
}
