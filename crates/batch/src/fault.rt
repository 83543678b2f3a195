// The refusals of batches and draws. specs/Faults.antt has their numbers.
ghost use Rattle.std.specs.Prelude.{◌≡◌};
ghost use Rattle.batch.specs.Faults.{fault_refusal, stretch_refusal, unfilled_cause};
ghost use Rattle.batch.specs.declared.fault.Fault.TheVariants.{Source, State};

use crate::draws::Batch;
use lattice::fault::StateFault;
use refusal::Cause;
use std::alloc::AllocError;

// The stretch is 0 or above 2^20.
#[derive(Clone, Copy, Debug)]
pub struct StretchFault;

// All 2^20 draws have been opened. The batch comes back.
#[derive(Drop)]
pub struct Full {
    pub batch: Batch,
}

// The source lacks the oldest place of a draw's window.
#[derive(Drop)]
pub struct Unfilled<F: Drop> {
    // The draw's number.
    pub number: u64,
    pub window: u64,
    // The source's own refusal.
    pub cause: F,
}

// Why a call on a batch or a draw is refused.
#[derive(Drop)]
pub enum Fault<F: Drop> {
    // All draws of the batch have been opened.
    Full,
    // A state is not the rule's.
    State(StateFault),
    // The window is 0 or larger than the stretch.
    Window,
    // The window is not larger than the largest tried.
    Tried,
    Source(Unfilled<F>),
}

impl<F: Drop> From<Unfilled<F>> for Fault<F> {
    ghost from_gives = { λ e r. r ≡ Source e };

    fn from(unfilled: Unfilled<F>) -> Fault<F> {
        Fault::Source(unfilled)
    }
}

impl<F: Drop> From<StateFault> for Fault<F> {
    ghost from_gives = { λ e r. r ≡ State e };

    fn from(fault: StateFault) -> Fault<F> {
        Fault::State(fault)
    }
}

impl Cause for StretchFault {
    ghost refusal = { λ _. stretch_refusal };

    fn tell(&self, numbers: &mut Vec<u64>) -> Result<(), AllocError> {
        numbers.push(21)?;
        Ok(())
    }
}

impl<F: Cause + Drop> Cause for Unfilled<F> {
    ghost refusal = { unfilled_cause F.refusal };

    fn tell(&self, numbers: &mut Vec<u64>) -> Result<(), AllocError> {
        let before = numbers.len();
        numbers.extend_from_slice(&[25, self.number, self.window])?;
        let told = self.cause.tell(numbers);
        if told.is_err() {
            numbers.truncate(before);
        }
        told
    }
}

impl<F: Cause + Drop> Cause for Fault<F> {
    ghost refusal = { fault_refusal F.refusal };

    fn tell(&self, numbers: &mut Vec<u64>) -> Result<(), AllocError> {
        match self {
            Fault::Full => numbers.push(22)?,
            Fault::State(fault) => fault.tell(numbers)?,
            Fault::Window => numbers.push(23)?,
            Fault::Tried => numbers.push(24)?,
            Fault::Source(unfilled) => unfilled.tell(numbers)?,
        }
        Ok(())
    }
}
