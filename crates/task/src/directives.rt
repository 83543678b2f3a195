// The directives: their names, and how each is read from the rest of its line.
ghost use Rattle.std.specs.Prelude.{◌≡◌};
ghost use Rattle.std.specs.Option.{ok_or};
ghost use Rattle.task.specs.Fields.{UnlessMemory, at_end, read_as};
ghost use Rattle.task.specs.Lines.{name_of, request, request_of};
ghost use Rattle.task.specs.Text.{left, words};
ghost use Rattle.task.specs.declared.line.Expected.{Expected};

use crate::fields::{bytes, end, numbers, one_number, path};
use crate::line::{Directive, Expected, LineFault};
use crate::words::Words;
use std::alloc::Global;

#[derive(Clone, Copy)]
pub enum Name {
    Spins,
    Partitions,
    Sets,
    Seed,
    Recording,
    RecordingFile,
    Trace,
    Stretch,
    Open,
    Try,
    Run,
    Close,
    GiveUp,
    Draws,
    States,
    Tally,
}

// The word of each directive. It is a table, since a `match` on the word leaves a hundred cases to prove.
const NAMES: [(&[u8], Name); 16] = [
    (b"spins", Name::Spins),
    (b"partitions", Name::Partitions),
    (b"sets", Name::Sets),
    (b"seed", Name::Seed),
    (b"recording", Name::Recording),
    (b"recording-file", Name::RecordingFile),
    (b"trace", Name::Trace),
    (b"stretch", Name::Stretch),
    (b"open", Name::Open),
    (b"try", Name::Try),
    (b"run", Name::Run),
    (b"close", Name::Close),
    (b"give-up", Name::GiveUp),
    (b"draws", Name::Draws),
    (b"states", Name::States),
    (b"tally", Name::Tally),
];

// The name that a word is.
impl TryFrom<&[u8]> for Name {
    type Error = Expected;

    ghost try_from_gives = { λ word r. r ≡ ok_or (name_of word.now) Expected.Directive };

    fn try_from(word: &[u8]) -> Result<Name, Expected> {
        let entry = NAMES.iter().find(|(text, _)| *text == word);
        entry.map(|(_, name)| *name).ok_or(Expected::Directive)
    }
}

// What a directive asks for, by the rest of its line.
pub fn read_directive(heap: Global, name: Name, rest: Words) -> Result<Directive, LineFault>
    ensures { UnlessMemory (read_as request_of) result (request name (left rest.entry)) }
{
    match name {
        Name::Spins => {
            // Named one by one: `thresholds @ ..` gets no proof.
            let [rows, columns, t0, t1, t2, t3, t4, t5, t6, t7, t8] = numbers::<11>(rest)?;
            let thresholds = [t0, t1, t2, t3, t4, t5, t6, t7, t8];
            Ok(Directive::Spins {
                rows,
                columns,
                thresholds,
            })
        }
        Name::Partitions => {
            let [rows, columns, cap] = numbers::<3>(rest)?;
            Ok(Directive::Partitions { rows, columns, cap })
        }
        Name::Sets => {
            let [rows, columns] = numbers::<2>(rest)?;
            Ok(Directive::Sets { rows, columns })
        }
        Name::Seed => Ok(Directive::Seed(one_number(rest)?)),
        Name::Recording => Ok(Directive::Recording(bytes(heap, rest)?)),
        Name::RecordingFile => Ok(Directive::RecordingFile(path(heap, rest)?)),
        Name::Trace => Ok(Directive::Trace(one_number(rest)?)),
        Name::Stretch => Ok(Directive::Stretch(one_number(rest)?)),
        Name::Open => Ok(bare(rest, Directive::Open)?),
        Name::Try => Ok(Directive::Try(one_number(rest)?)),
        Name::Run => Ok(bare(rest, Directive::Run)?),
        Name::Close => Ok(bare(rest, Directive::Close)?),
        Name::GiveUp => Ok(bare(rest, Directive::GiveUp)?),
        Name::Draws => Ok(Directive::Draws(one_number(rest)?)),
        Name::States => Ok(bare(rest, Directive::States)?),
        Name::Tally => Ok(bare(rest, Directive::Tally)?),
    }
}

// A directive that is its name alone.
fn bare(rest: Words, directive: Directive) -> Result<Directive, Expected>
    ensures { read_as request_of result ≡ at_end (words (left rest.entry)) (request_of directive) }
{
    end(rest)?;
    Ok(directive)
}
