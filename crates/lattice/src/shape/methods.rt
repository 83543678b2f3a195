// Making a shape, reading it, and the neighbours of its cells.
ghost use Rattle.std.specs.Prelude.{◌≡◌, map};
ghost use Rattle.lattice.specs.Faults.{shape_refusal};
ghost use Rattle.lattice.specs.Grid.{agree, beside, cell_count, directions};
ghost use Rattle.refusal.specs.Refusals.{answer};
ghost use Rattle.lattice.specs.Shapes.{extent_of, shape_answer};

use super::Shape;
use crate::fault::ShapeFault;

// How far a neighbour lies away, in rows and in columns.
pub type Shift = (isize, isize);

pub const ABOVE: Shift = (-1, 0);

pub const BELOW: Shift = (1, 0);

pub const LEFT: Shift = (0, -1);

pub const RIGHT: Shift = (0, 1);

pub const DIRECTIONS: [Shift; 4] = [ABOVE, BELOW, LEFT, RIGHT];

impl Shape {
    // Sides from 1 to 32 and a cap from 1 to `most`, the largest that the kind allows.
    pub fn new(rows: u64, columns: u64, cap: u64, most: u8) -> Result<Shape, ShapeFault>
        ensures { answer extent_of shape_refusal result ≡ shape_answer rows columns «cap» most }
    {
        if !(1..=32).contains(&rows) || !(1..=32).contains(&columns) {
            return Err(ShapeFault::Side);
        }
        if !(1..=u64::from(most)).contains(&cap) {
            return Err(ShapeFault::Cap);
        }
        Ok(Shape {
            rows: rows as usize,
            columns: columns as usize,
            cap: cap as u8,
        })
    }

    // Rows and columns.
    pub fn sides(&self) -> (usize, usize)
        ensures { result ≡ ((extent_of self.now).rows, (extent_of self.now).columns) }
    {
        (self.rows, self.columns)
    }

    pub fn cap(&self) -> u8
        ensures { result ≡ (extent_of self.now).largest }
    {
        self.cap
    }

    pub fn cell_count(&self) -> u32
        ensures { result ≡ cell_count (extent_of self.now) }
    {
        (self.rows * self.columns) as u32
    }

    // Whether two shapes agree in sides and cap.
    pub fn agrees(&self, other: &Shape) -> bool
        ensures { result ≡ agree (extent_of self.now) (extent_of other.now) }
    {
        self == other
    }

    // The cell that lies one shift away from `cell`, where there is one.
    pub fn beside(&self, cell: usize, shift: Shift) -> Option<usize>
        ensures { result ≡ beside (extent_of self.now) cell shift }
    {
        let row = (cell / self.columns).checked_add_signed(shift.0)?;
        let column = (cell % self.columns).checked_add_signed(shift.1)?;
        if row < self.rows && column < self.columns {
            Some(row * self.columns + column)
        } else {
            None
        }
    }

    // The cells above, below, left and right of a cell, where they exist.
    pub fn neighbours(&self, cell: usize) -> [Option<usize>; 4]
        ensures { result ≡ map (beside (extent_of self.now) cell) directions }
    {
        DIRECTIONS.map(|shift| self.beside(cell, shift))
    }
}
