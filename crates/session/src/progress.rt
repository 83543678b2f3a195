// Progress: a line for who watches, of how many draws of a directive `draws` are over. It is no answer, so a task goes on
// where it cannot be written.
ghost use Rattle.std.specs.Prelude.{◌≡◌, IfOk, string_bytes};
ghost use Rattle.session.specs.Draws.{progress_line};

use crate::requests::Draws;
use std::alloc::{AllocError, Global};

#[derive(Clone, Copy)]
pub enum Progress {
    Hidden,
    // On standard error.
    Shown,
}

impl Progress {
    pub(crate) fn say(self, rt: &HostRuntime, draws: Draws) {
        if let Progress::Shown = self
            && let Ok(line) = progress_line(rt.alloc(), draws.done(), draws.count())
        {
            let _ = eprint!(rt; "{line}");
        }
    }

    // Ends the line.
    pub(crate) fn end(self, rt: &HostRuntime) {
        if let Progress::Shown = self {
            let _ = eprintln!(rt);
        }
    }
}

fn progress_line(heap: Global, done: u64, count: u64) -> Result<String, AllocError>
    ensures { IfOk result (λ t. string_bytes t ≡ progress_line done count) }
{
    format!(in heap; "\r{done} of {count} draws")
}
