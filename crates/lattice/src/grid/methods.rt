// Making, reading and changing the cells of a grid; the answers that every kind on a grid gives alike.
ghost use Rattle.std.specs.Prelude.{◌≡◌, ℕ, ◌<◌, length, take, replicate, IfOk, if◌then◌else◌, vec_len, Decides, nat_le, slice_index, slice_set};
ghost use Rattle.lattice.specs.Calls.{EqualAnswers, cell_answer, owner_answer, read_answer};
ghost use Rattle.lattice.specs.Faults.{state_refusal};
ghost use Rattle.lattice.specs.Grid.{agree, cell_count};
ghost use Rattle.lattice.specs.Grids.{grid_cells, grid_extent};
ghost use Rattle.lattice.specs.Shapes.{extent_of};
ghost use Rattle.refusal.specs.Refusals.{answer};

use super::Grid;
use crate::fault::StateFault;
use crate::shape::Shape;
use std::alloc::{AllocError, Global};

// Writes at each index the value that `value_of` gives for it.
fn write_each<F: Fn(usize) -> u8>(cells: &mut [u8], value_of: F)
    requires { F.IsAlwaysCallable value_of }
    ensures { (i : ℕ) → i < length cells.old → F.post value_of i (slice_index cells.new i) }
{
    for (i, cell) in cells.iter_mut().enumerate() {
        *cell = value_of(i);
    }
}

impl Grid {
    // A grid of this shape with 0 in every cell.
    pub fn new(heap: Global, shape: Shape) -> Result<Grid, AllocError>
        ensures { IfOk result (λ g. (grid_cells g ≡ replicate (cell_count (extent_of shape)) 0) × (grid_extent g ≡ extent_of shape)) }
    {
        let cells = vec![in heap; 0u8; shape.cell_count() as usize]?;
        Ok(Grid { shape, cells })
    }

    pub fn shape(&self) -> Shape
        ensures { extent_of result ≡ grid_extent self.now }
    {
        self.shape
    }

    // The values of all cells.
    pub fn as_slice(&self) -> &[u8]
        ensures { result.now ≡ grid_cells self.now }
    {
        self.cells.as_slice()
    }

    // The value of a cell, 0 past the last one.
    pub fn get(&self, cell: usize) -> u8
        ensures { result ≡ slice_index (grid_cells self.now) cell }
    {
        self.cells.get(cell).copied().unwrap_or(0)
    }

    // Whether the grid has this shape.
    pub fn has_shape(&self, shape: &Shape) -> bool
        ensures { result ≡ agree (extent_of shape.now) (grid_extent self.now) }
    {
        shape.agrees(&self.shape)
    }

    // Writes one cell; past the last cell nothing changes.
    pub fn put(&mut self, at: usize, value: u8)
        ensures writes { grid_cells self.new ≡ slice_set (grid_cells self.old) at value }
        ensures keeps { grid_extent self.new ≡ grid_extent self.old }
    {
        if at < self.cells.len() {
            self.cells[at] = value;
        }
    }

    // Writes the same value into every cell.
    pub fn fill(&mut self, value: u8)
        ensures writes { grid_cells self.new ≡ replicate (cell_count (grid_extent self.old)) value }
        ensures keeps { grid_extent self.new ≡ grid_extent self.old }
    {
        self.cells.as_mut_slice().fill(value);
    }

    // Writes into each cell the value that `value_of` gives for it.
    pub fn fill_with<F: Fn(usize) -> u8>(&mut self, value_of: F)
        requires { F.IsAlwaysCallable value_of }
        ensures writes { (i : ℕ) → i < cell_count (grid_extent self.old) → F.post value_of i (slice_index (grid_cells self.new) i) }
        ensures keeps { grid_extent self.new ≡ grid_extent self.old }
    {
        write_each(self.cells.as_mut_slice(), value_of);
    }

    // Writes a byte for each cell, from the first on; nothing changes where there are too few.
    pub fn copy_from(&mut self, bytes: &[u8])
        ensures writes { grid_cells self.new ≡ (if nat_le (cell_count (grid_extent self.old)) (length bytes.now) then take (cell_count (grid_extent self.old)) bytes.now else grid_cells self.old) }
        ensures keeps { grid_extent self.new ≡ grid_extent self.old }
    {
        let count = self.cells.len();
        if count <= bytes.len() {
            self.cells.as_mut_slice().copy_from_slice(&bytes[0..count]);
        }
    }

    // Refuses a state that is to have this shape and has another.
    pub fn check_shape(&self, shape: &Shape) -> Result<(), StateFault>
        ensures { answer (λ u. u) state_refusal result ≡ owner_answer (extent_of shape.now) (grid_extent self.now) }
    {
        if self.has_shape(shape) {
            Ok(())
        } else {
            Err(StateFault::Foreign)
        }
    }

    // The bytes that are loaded into a state that is to have this shape: one for each cell, from the first on.
    pub fn bytes_to_load<'a>(&self, shape: &Shape, bytes: &'a [u8]) -> Result<&'a [u8], StateFault>
        ensures { answer (λ r. r.now) state_refusal result ≡ read_answer (extent_of shape.now) (grid_extent self.now) bytes.now }
    {
        self.check_shape(shape)?;
        bytes.get(..self.cells.len()).ok_or(StateFault::FewCells)
    }

    // One cell of a state that is to have this shape.
    pub fn cell_of(&self, shape: &Shape, index: u64) -> Result<u8, StateFault>
        ensures { answer (λ v. v) state_refusal result ≡ cell_answer (extent_of shape.now) (grid_extent self.now) (grid_cells self.now) index }
    {
        self.check_shape(shape)?;
        self.cells
            .get(index as usize)
            .copied()
            .ok_or(StateFault::NoCell)
    }

    // Whether two states that are to have this shape hold the same cells.
    pub fn same_of(&self, shape: &Shape, other: &Grid) -> Result<bool, StateFault>
        ensures { EqualAnswers (extent_of shape.now) (grid_extent self.now) (grid_extent other.now) (grid_cells self.now) (grid_cells other.now) (answer (λ t. t) state_refusal result) }
    {
        self.check_shape(shape)?;
        other.check_shape(shape)?;
        Ok(self.cells == other.cells)
    }
}
