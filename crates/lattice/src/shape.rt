// The sides and the cap that a rule and its states carry.
ghost use Rattle.std.specs.Prelude.{◌≤◌};

mod methods;

pub use methods::{ABOVE, BELOW, DIRECTIONS, LEFT, RIGHT};

// `cap` is the largest value that a cell may hold.
#[derive(Clone, Copy, Debug, PartialEq, Eq)]
pub struct Shape {
    rows: usize,
    columns: usize,
    cap: u8,
    ghost sided: { (1 ≤ rows) × (rows ≤ 32) × (1 ≤ columns) × (columns ≤ 32) },
    ghost capped: { (1 ≤ «cap») × («cap» ≤ 255) },
}
