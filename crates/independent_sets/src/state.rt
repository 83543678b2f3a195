// The independent sets of a grid.
ghost use Rattle.std.specs.Prelude.{◌≡◌, ℕ, ◌≤◌, true, slice_index};
ghost use Rattle.independent_sets.specs.Independent.{independent};
ghost use Rattle.lattice.specs.Grids.{grid_cells, grid_extent};

use lattice::grid::Grid;

#[derive(Drop)]
pub struct IndependentSet {
    pub(crate) grid: Grid,
    ghost bits: { (i : ℕ) → slice_index (grid_cells grid) i ≤ 1 },
    ghost apart: { independent (grid_extent grid) (grid_cells grid) ≡ true },
}
