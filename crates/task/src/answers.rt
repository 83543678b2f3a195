// The lines of a task's answers.
ghost use Rattle.std.specs.Prelude.{◌≡◌, ◌++◌, IfOk, string_bytes};
ghost use Rattle.task.specs.Answers.{spaced};
ghost use Rattle.std.specs.List.{flat_map};

use std::alloc::{AllocError, Global};
use std::fmt::Write;

// A text, and behind it numbers in decimal, each after one space.
pub fn numbers_line(heap: Global, head: &str, numbers: &[u64]) -> Result<String, AllocError>
    ensures { IfOk result (λ t. string_bytes t ≡ head.now ++ flat_map spaced numbers.now) }
{
    let mut line = String::from_str(heap, head)?;
    for number in numbers {
        write!(line, " {number}")?;
    }
    Ok(line)
}
