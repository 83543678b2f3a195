// Spin grids as a kind: code 1, one bit a cell. First what changes spins, each keeping every cell 0 or 1.
ghost use Rattle.std.specs.Prelude.{◌≡◌, ℕ, ◌≤◌, length, take, replicate, IfOk, if◌then◌else◌, ◌==◌, nat_lt, slice_index, slice_set};
ghost use Rattle.std.specs.List.{position};
ghost use Rattle.std.proofs.Common.{subst, ap, sym, ◌∙◌, rules};
ghost use Rattle.lattice.specs.Grid.{cell_count, Extent};
ghost use Rattle.lattice.specs.Shapes.{extent_of};
ghost use Rattle.spins.specs.Spin.{spins_meaning, threshold_index};
ghost use Rattle.spins.specs.Spins.{spin_cells, spin_extent, spins_extent, spins_table};
ghost use Rattle.spins.specs.Laws;
ghost use Rattle.lattice.specs.Kind.{Lawful};
ghost use Rattle.spins.specs.Laws.{lawful_from};

use super::Spins;
use crate::state::SpinGrid;
use lattice::fault::StateFault;
use lattice::grid::Grid;
use lattice::kind::Kind;
use lattice::shape::{DIRECTIONS, Shape};
use lattice::words::split;
use std::alloc::{AllocError, Global};

impl SpinGrid {
    // All spins down.
    fn new(heap: Global, shape: Shape) -> Result<SpinGrid, AllocError>
        ensures { IfOk result (λ s. (spin_cells s ≡ replicate (cell_count (extent_of shape)) 0) × (spin_extent s ≡ extent_of shape)) }
    {
        let grid = Grid::new(heap, shape)?;
        Ok(SpinGrid { grid })
    }

    fn is_up(&self, cell: usize) -> bool
        ensures { result ≡ (slice_index (spin_cells self.now) cell == 1) }
    {
        self.grid.get(cell) == 1
    }

    // Turns one spin up or down.
    fn turn(&mut self, cell: usize, up: bool)
        ensures writes { spin_cells self.new ≡ slice_set (spin_cells self.old) cell (if up then 1 else 0) }
        ensures keeps { spin_extent self.new ≡ spin_extent self.old }
    {
        self.grid.put(cell, u8::from(up));
    }

    // Turns all spins up or down.
    fn turn_all(&mut self, up: bool)
        ensures writes { spin_cells self.new ≡ replicate (cell_count (spin_extent self.old)) (if up then 1 else 0) }
        ensures keeps { spin_extent self.new ≡ spin_extent self.old }
    {
        self.grid.fill(u8::from(up));
    }

    // Takes spins, each found to be 0 or 1, one for each cell.
    fn take_spins(&mut self, spins: &[u8])
        requires each { length spins.now ≡ cell_count (spin_extent self.old) }
        requires bits { (i : ℕ) → slice_index spins.now i ≤ 1 }
        ensures writes { spin_cells self.new ≡ spins.now }
        ensures keeps { spin_extent self.new ≡ spin_extent self.old }
    {
        self.grid.copy_from(spins);
    }
}

// The first of these values that is no spin.
fn first_no_spin(values: &[u8]) -> Option<usize>
    ensures { result ≡ position (nat_lt 1) values.now }
{
    values.iter().position(|value| *value > 1)
}

impl Spins {
    // The index of the threshold that decides the site: 4, and one more for each neighbour that is up, one less for each
    // that is down.
    fn threshold_index(&self, state: &SpinGrid, site: usize) -> usize
        ensures { result ≡ threshold_index (spins_extent self.now) (spin_cells state.now) site }
    {
        let mut index = 4;
        for shift in DIRECTIONS {
            match self.shape.beside(site, shift) {
                Some(cell) if state.is_up(cell) => index += 1,
                Some(_) => index -= 1,
                None => {}
            }
        }
        index
    }
}

impl Kind for Spins {
    type State = SpinGrid;

    const CODE: u8 = 1;

    const WIDTH: u8 = 1;

    ghost meaning = { λ k. spins_meaning (spins_extent k) (spins_table k) };

    ghost extent = { spins_extent };

    ghost cells = { spin_cells };

    ghost carried = { spin_extent };

    ghost CODE = { 1 };

    ghost WIDTH = { 1 };

    ghost ordered = { λ k. Laws.ordered (spins_extent k) (spins_table k) };

    ghost bounded = { λ k. Laws.bounded (spins_extent k) (spins_table k) };

    ghost closed = { λ k. Laws.closed (spins_extent k) (spins_table k) };

    ghost monotone = { λ k. Laws.monotone (spins_extent k) (spins_table k) k.thresholds.rises };

    ghost distinct = { λ k. Laws.distinct (spins_extent k) (spins_table k) };

    ghost shared = { λ j k same x h. subst (λ (e : Extent). Lawful (spins_meaning e (spins_table k)) x) same h };

    ghost sized = { λ k. Laws.sized (spins_extent k) (spins_table k) };

    ghost lawful = { λ k s same. lawful_from (spins_extent k) (spins_table k) (spin_cells s) (sym s.grid.cells.ok.0 ∙ s.grid.sized ∙ ap cell_count same) s.spins };

    ghost in_range = { Prim.search rules };

    ghost carried_in_range = { Prim.search rules };

    ghost encoded = { Prim.search rules };

    fn shape(&self) -> Shape {
        self.shape
    }

    fn shape_of(state: &SpinGrid) -> Shape {
        state.grid.shape()
    }

    fn new_state(&self, heap: Global) -> Result<SpinGrid, StateFault> {
        Ok(SpinGrid::new(heap, self.shape)?)
    }

    fn set_bottom(&self, state: &mut SpinGrid) -> Result<(), StateFault> {
        state.grid.check_shape(&self.shape)?;
        state.turn_all(false);
        Ok(())
    }

    fn set_top(&self, state: &mut SpinGrid) -> Result<(), StateFault> {
        state.grid.check_shape(&self.shape)?;
        state.turn_all(true);
        Ok(())
    }

    fn apply(&self, state: &mut SpinGrid, word: u64) -> Result<(), StateFault> {
        state.grid.check_shape(&self.shape)?;
        let (site, level) = split(word, self.shape.cell_count());
        let index = self.threshold_index(state, site as usize);
        state.turn(site as usize, u64::from(level) < self.thresholds.at(index));
        Ok(())
    }

    fn equal(&self, first: &SpinGrid, second: &SpinGrid) -> Result<bool, StateFault> {
        first.grid.same_of(&self.shape, &second.grid)
    }

    fn cell(&self, state: &SpinGrid, index: u64) -> Result<u8, StateFault> {
        state.grid.cell_of(&self.shape, index)
    }

    fn load(&self, state: &mut SpinGrid, bytes: &[u8]) -> Result<(), StateFault> {
        let spins = state.grid.bytes_to_load(&self.shape, bytes)?;
        if let Some(cell) = first_no_spin(spins) {
            return Err(StateFault::Unlawful { cell });
        }
        state.take_spins(spins);
        Ok(())
    }
}
