// Why a task stops before its end, and how that is said.
ghost use Rattle.std.specs.Prelude.{◌≡◌};
ghost use Rattle.session.specs.Messages.{line_trouble, message, stopped_message};
ghost use Rattle.session.specs.declared.trouble.Trouble.TheVariants.{Failed, Memory};

use std::alloc::{AllocError, AllocFailed};
use std::{fmt, io};
use task::line::{Expected, LineFault};

#[derive(Drop)]
pub enum Trouble {
    // The line cannot be read.
    Unreadable(Expected),
    // The directive does not belong here.
    Misplaced,
    // The path is no text.
    NoText,
    // A file, the input or the output failed.
    Failed(io::Error),
    Memory,
}

impl From<LineFault> for Trouble {
    ghost from_gives = { λ e r. r ≡ line_trouble e };

    fn from(fault: LineFault) -> Trouble {
        match fault {
            LineFault::Expected(expected) => Trouble::Unreadable(expected),
            LineFault::Memory => Trouble::Memory,
        }
    }
}

impl From<io::Error> for Trouble {
    ghost from_gives = { λ e r. r ≡ Failed e };

    fn from(error: io::Error) -> Trouble {
        Trouble::Failed(error)
    }
}

impl From<AllocError> for Trouble {
    ghost from_gives = { λ _ r. r ≡ Memory };

    fn from(_error: AllocError) -> Trouble {
        Trouble::Memory
    }
}

impl<T: Drop> From<AllocFailed<T>> for Trouble {
    ghost from_gives = { λ _ r. r ≡ Memory };

    fn from(_error: AllocFailed<T>) -> Trouble {
        Trouble::Memory
    }
}

impl fmt::Display for Trouble {
    ghost output = { message };

    fn fmt<W: fmt::Write>(&self, f: &mut fmt::Formatter<W>) -> fmt::Result {
        match self {
            Trouble::Unreadable(expected) => write!(f, "expected {expected}"),
            Trouble::Misplaced => write!(f, "this directive is not allowed here"),
            Trouble::NoText => write!(f, "the path is not valid UTF-8"),
            Trouble::Failed(error) => write!(f, "{error}"),
            Trouble::Memory => write!(f, "out of memory"),
        }
    }
}

// The line at which a task stopped, and why.
#[derive(Drop)]
pub struct Stopped {
    pub line: u64,
    pub trouble: Trouble,
}

impl fmt::Display for Stopped {
    ghost output = { λ s. stopped_message s.line (message s.trouble) };

    fn fmt<W: fmt::Write>(&self, f: &mut fmt::Formatter<W>) -> fmt::Result {
        let line = self.line;
        write!(f, "line {line}: {}", &self.trouble)
    }
}
