// The cells of a state on a grid, one byte each, row after row.
ghost use Rattle.std.specs.Prelude.{◌≡◌, ◌*◌, vec_len};

use crate::shape::Shape;

mod methods;

#[derive(Drop)]
pub struct Grid {
    shape: Shape,
    cells: Vec<u8>,
    ghost sized: { vec_len cells ≡ shape.rows * shape.columns },
}
