// A line of a task: what it asks for, or what was expected in its place.
ghost use Rattle.std.specs.Prelude.{◌≡◌, Some};
ghost use Rattle.task.specs.Fields.{UnlessMemory, wording};
ghost use Rattle.task.specs.declared.line.LineFault.{LineFault};
ghost use Rattle.task.specs.Lines.{line_meaning, meaning_of};

use crate::directives::{Name, read_directive};
use crate::words::Words;
use std::alloc::{AllocError, Global};
use std::fmt;

#[derive(Debug, Drop)]
pub enum Directive {
    Spins {
        rows: u64,
        columns: u64,
        thresholds: [u64; 9],
    },
    Partitions {
        rows: u64,
        columns: u64,
        cap: u64,
    },
    Sets {
        rows: u64,
        columns: u64,
    },
    Seed(u64),
    Recording(Vec<u8>),
    RecordingFile(Vec<u8>),
    Trace(u64),
    Stretch(u64),
    Open,
    Try(u64),
    Run,
    Close,
    GiveUp,
    Draws(u64),
    States,
    Tally,
}

// What should have stood where a line could not be read on.
#[derive(Clone, Copy, Debug, PartialEq, Eq)]
pub enum Expected {
    Directive,
    Number,
    Hex,
    Path,
    End,
}

impl fmt::Display for Expected {
    ghost output = { λ e. Some (wording e) };

    fn fmt<W: fmt::Write>(&self, f: &mut fmt::Formatter<W>) -> fmt::Result {
        match self {
            Expected::Directive => f.write_str("a directive"),
            Expected::Number => f.write_str("a number below 2^64"),
            Expected::Hex => f.write_str("bytes in hex, or -"),
            Expected::Path => f.write_str("a path"),
            Expected::End => f.write_str("the end of the line"),
        }
    }
}

// Why a line could not be read.
#[derive(Clone, Copy, Debug, PartialEq, Eq)]
pub enum LineFault {
    Expected(Expected),
    Memory,
}

impl From<Expected> for LineFault {
    ghost from_gives = { λ e r. r ≡ LineFault.Expected e };

    fn from(expected: Expected) -> LineFault {
        LineFault::Expected(expected)
    }
}

impl From<AllocError> for LineFault {
    ghost from_gives = { λ _ r. r ≡ LineFault.Memory };

    fn from(_error: AllocError) -> LineFault {
        LineFault::Memory
    }
}

// What a line asks for, without its line end; nothing where it has no word or is a remark.
pub fn read_line(heap: Global, line: &[u8]) -> Result<Option<Directive>, LineFault>
    ensures { UnlessMemory meaning_of result (line_meaning line.now) }
{
    let mut rest = Words::new(line);
    match rest.next_word() {
        None | Some([b'#', ..]) => Ok(None),
        Some(word) => {
            let name = Name::try_from(word)?;
            Ok(Some(read_directive(heap, name, rest)?))
        }
    }
}
