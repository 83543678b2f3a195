// Plane partitions as a kind: code 2, eight bits a cell. First the bounds of a height among its neighbours, then what
// changes heights, each keeping them from rising to the right and downwards.
ghost use Rattle.std.specs.Prelude.{◌≡◌, ◌≤◌, length, replicate, IfOk, slice_set};
ghost use Rattle.std.proofs.Common.{subst, sym, ◌∙◌, rules};
ghost use Rattle.lattice.specs.Grid.{cell_count, Extent};
ghost use Rattle.lattice.specs.Shapes.{extent_of};
ghost use Rattle.partitions.specs.Heights.{Falling, height_or, highest, lowered, lowest, partitions_meaning, raised};
ghost use Rattle.partitions.specs.Partitions.{partition_cells, partition_extent, partitions_extent};
ghost use Rattle.partitions.specs.Laws;
ghost use Rattle.lattice.specs.Kind.{Lawful};
ghost use Rattle.partitions.specs.Laws.{lawful_from};

use super::Partitions;
use crate::state::PlanePartition;
use lattice::fault::StateFault;
use lattice::grid::Grid;
use lattice::kind::Kind;
use lattice::shape::{ABOVE, BELOW, LEFT, RIGHT, Shape};
use lattice::words::{MIDDLE_LEVEL, split};
use std::alloc::{AllocError, Global};

// The height at a cell, or the other where there is no cell; 0 past the last height.
fn height_or(other: u8, heights: &[u8], cell: Option<usize>) -> u8
    ensures { result ≡ height_or other heights.now cell }
{
    cell.map_or(other, |cell| heights.get(cell).copied().unwrap_or(0))
}

// The largest height that a cell may have beside those to its left and above.
fn highest(shape: &Shape, heights: &[u8], cell: usize) -> u8
    ensures { result ≡ highest (extent_of shape.now) heights.now cell }
{
    let cap = shape.cap();
    let left = height_or(cap, heights, shape.beside(cell, LEFT));
    let above = height_or(cap, heights, shape.beside(cell, ABOVE));
    cap.min(left.min(above))
}

// The smallest height that a cell may have beside those to its right and below.
fn lowest(shape: &Shape, heights: &[u8], cell: usize) -> u8
    ensures { result ≡ lowest (extent_of shape.now) heights.now cell }
{
    let right = height_or(0, heights, shape.beside(cell, RIGHT));
    let below = height_or(0, heights, shape.beside(cell, BELOW));
    right.max(below)
}

impl PlanePartition {
    // All heights 0.
    fn new(heap: Global, shape: Shape) -> Result<PlanePartition, AllocError>
        ensures { IfOk result (λ s. (partition_cells s ≡ replicate (cell_count (extent_of shape)) 0) × (partition_extent s ≡ extent_of shape)) }
    {
        let grid = Grid::new(heap, shape)?;
        Ok(PlanePartition { grid })
    }

    // Gives one cell a height that fits its neighbours.
    fn put(&mut self, cell: usize, height: u8)
        requires { Falling (partition_extent self.old) (slice_set (partition_cells self.old) cell height) }
        ensures writes { partition_cells self.new ≡ slice_set (partition_cells self.old) cell height }
        ensures keeps { partition_extent self.new ≡ partition_extent self.old }
    {
        self.grid.put(cell, height);
    }

    // Gives all cells the same height.
    fn fill(&mut self, height: u8)
        requires { height ≤ (partition_extent self.old).largest }
        ensures writes { partition_cells self.new ≡ replicate (cell_count (partition_extent self.old)) height }
        ensures keeps { partition_extent self.new ≡ partition_extent self.old }
    {
        self.grid.fill(height);
    }

    // Takes heights that were found to be lawful, one for each cell.
    fn take_heights(&mut self, heights: &[u8])
        requires each { length heights.now ≡ cell_count (partition_extent self.old) }
        requires falling { Falling (partition_extent self.old) heights.now }
        ensures writes { partition_cells self.new ≡ heights.now }
        ensures keeps { partition_extent self.new ≡ partition_extent self.old }
    {
        self.grid.copy_from(heights);
    }

    // Raises the site by one where it may be higher.
    fn raise(&mut self, site: usize)
        ensures writes { partition_cells self.new ≡ raised (partition_extent self.old) site (partition_cells self.old) }
        ensures keeps { partition_extent self.new ≡ partition_extent self.old }
    {
        let height = self.grid.get(site);
        if height < highest(&self.grid.shape(), self.grid.as_slice(), site) {
            self.put(site, height + 1);
        }
    }

    // Lowers the site by one where it may be lower.
    fn lower(&mut self, site: usize)
        ensures writes { partition_cells self.new ≡ lowered (partition_extent self.old) site (partition_cells self.old) }
        ensures keeps { partition_extent self.new ≡ partition_extent self.old }
    {
        let height = self.grid.get(site);
        if height > lowest(&self.grid.shape(), self.grid.as_slice(), site) {
            self.put(site, height - 1);
        }
    }
}

impl Kind for Partitions {
    type State = PlanePartition;

    const CODE: u8 = 2;

    ghost CODE = { 2 };

    const WIDTH: u8 = 8;

    ghost WIDTH = { 8 };

    ghost meaning = { λ k. partitions_meaning (partitions_extent k) };

    ghost extent = { partitions_extent };

    ghost cells = { partition_cells };

    ghost carried = { partition_extent };

    fn shape(&self) -> Shape {
        self.shape
    }

    fn shape_of(state: &PlanePartition) -> Shape {
        state.grid.shape()
    }

    fn new_state(&self, heap: Global) -> Result<PlanePartition, StateFault> {
        Ok(PlanePartition::new(heap, self.shape)?)
    }

    fn set_bottom(&self, state: &mut PlanePartition) -> Result<(), StateFault> {
        state.grid.check_shape(&self.shape)?;
        state.fill(0);
        Ok(())
    }

    fn set_top(&self, state: &mut PlanePartition) -> Result<(), StateFault> {
        state.grid.check_shape(&self.shape)?;
        state.fill(self.shape.cap());
        Ok(())
    }

    fn apply(&self, state: &mut PlanePartition, word: u64) -> Result<(), StateFault> {
        state.grid.check_shape(&self.shape)?;
        let (site, level) = split(word, self.shape.cell_count());
        if level < MIDDLE_LEVEL {
            state.raise(site as usize);
        } else {
            state.lower(site as usize);
        }
        Ok(())
    }

    fn equal(&self, first: &PlanePartition, second: &PlanePartition) -> Result<bool, StateFault> {
        first.grid.same_of(&self.shape, &second.grid)
    }

    fn cell(&self, state: &PlanePartition, index: u64) -> Result<u8, StateFault> {
        state.grid.cell_of(&self.shape, index)
    }

    fn load(&self, state: &mut PlanePartition, bytes: &[u8]) -> Result<(), StateFault> {
        let heights = state.grid.bytes_to_load(&self.shape, bytes)?;
        for (cell, height) in heights.iter().enumerate() {
            if *height > highest(&self.shape, heights, cell) {
                return Err(StateFault::Unlawful { cell });
            }
        }
        state.take_heights(heights);
        Ok(())
    }

    ghost ordered = { λ k. Laws.ordered (partitions_extent k) };

    ghost bounded = { λ k. Laws.bounded (partitions_extent k) };

    ghost closed = { λ k. Laws.closed (partitions_extent k) };

    ghost monotone = { λ k. Laws.monotone (partitions_extent k) };

    ghost distinct = { λ k. Laws.distinct (partitions_extent k) };

    ghost shared = { λ j k same x h. subst (λ (e : Extent). Lawful (partitions_meaning e) x) same h };

    ghost sized = { λ k. Laws.sized (partitions_extent k) k.shape.capped.1 };

    ghost lawful = { λ k s same.
        subst (λ (e : Extent). Lawful (partitions_meaning e) (partition_cells s)) same
        (lawful_from (partition_extent s) (partition_cells s) (sym s.grid.cells.ok.0 ∙ s.grid.sized) s.falling) };

    ghost in_range = { Prim.search rules };

    ghost carried_in_range = { Prim.search rules };

    ghost encoded = { Prim.search rules };
}
