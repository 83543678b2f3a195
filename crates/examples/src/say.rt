// Printing an answer: accepted, or refused with the refusal's numbers.
use lattice::kind::Kind;
use refusal::Cause;
use std::alloc::{AllocError, AllocFailed};
use std::io;
use task::answers::numbers_line;

// Why the program ends with status 1. Standard error names the case.
#[derive(Debug, Drop)]
pub enum Failed {
    Memory,
    Output(io::Error),
    // An example was refused that is to be accepted.
    Example,
}

impl From<AllocError> for Failed {
    fn from(_error: AllocError) -> Failed {
        Failed::Memory
    }
}

impl<T: Drop> From<AllocFailed<T>> for Failed {
    fn from(_error: AllocFailed<T>) -> Failed {
        Failed::Memory
    }
}

impl From<io::Error> for Failed {
    fn from(error: io::Error) -> Failed {
        Failed::Output(error)
    }
}

pub fn say<T: Drop, E: Cause + Drop>(
    rt: &HostRuntime,
    what: &str,
    answer: Result<T, E>,
) -> Result<(), Failed> {
    match answer {
        Ok(_) => println!(rt; "{what}: accepted")?,
        Err(cause) => say_refused(rt, what, &cause)?,
    }
    Ok(())
}

pub fn say_refused<E: Cause>(rt: &HostRuntime, what: &str, cause: &E) -> Result<(), Failed> {
    let numbers = cause.numbers(rt.alloc())?;
    let line = numbers_line(rt.alloc(), "refused", numbers.as_slice())?;
    println!(rt; "{what}: {line}")?;
    Ok(())
}

// What a call gives that is not to be refused.
pub fn accepted<T, E: Drop>(answer: Result<T, E>) -> Result<T, Failed> {
    answer.map_err(|_| Failed::Example)
}

// A new state, which only want of memory keeps a rule from making.
pub fn made<K: Kind>(rt: &HostRuntime, rule: &K) -> Result<K::State, Failed> {
    rule.new_state(rt.alloc()).map_err(|_| Failed::Memory)
}
