// The states of spin grids.
ghost use Rattle.std.specs.Prelude.{ℕ, ◌≤◌, slice_index};
ghost use Rattle.lattice.specs.Grids.{grid_cells};

use lattice::grid::Grid;

#[derive(Drop)]
pub struct SpinGrid {
    pub(crate) grid: Grid,
    ghost spins: { (i : ℕ) → slice_index (grid_cells grid) i ≤ 1 },
}
