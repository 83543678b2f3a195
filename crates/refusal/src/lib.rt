// Refusals: every error is a type of its own, and this interface gives its number and values.
#![tactic(auto)]

ghost use Rattle.std.specs.Prelude.{◌≡◌, ◌++◌, IfOk, is_ok, if◌then◌else◌, vec_items};
ghost use Rattle.refusal.specs.Refusals.{Refusal, row};

use std::alloc::{AllocError, Global};

pub trait Cause {
    // The number and the values of the refusal.
    ghost refusal: { Self → Refusal };

    // Adds the refusal's row of numbers to `numbers`: its own number, then its values. Without memory for them nothing is
    // added.
    fn tell(&self, numbers: &mut Vec<u64>) -> Result<(), AllocError>
        ensures { numbers.new.items ≡ (if is_ok result then numbers.old.items ++ row (refusal self.now) else numbers.old.items) };

    // The refusal's row of numbers: its own number, then its values; empty for want of memory.
    final fn numbers(&self, heap: Global) -> Result<Vec<u64>, AllocError>
        ensures { IfOk result (λ v. vec_items v ≡ row (refusal self.now)) }
    {
        let mut numbers = Vec::new(heap);
        self.tell(&mut numbers)?;
        Ok(numbers)
    }
}
