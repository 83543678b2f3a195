// The states of plane partitions.
ghost use Rattle.lattice.specs.Grids.{grid_cells, grid_extent};
ghost use Rattle.partitions.specs.Heights.{Falling};

use lattice::grid::Grid;

#[derive(Drop)]
pub struct PlanePartition {
    pub(crate) grid: Grid,
    ghost falling: { Falling (grid_extent grid) (grid_cells grid) },
}
