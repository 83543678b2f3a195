// Independent sets as a kind: code 3, one bit a cell. First the tests of a cell by its neighbours, then what changes a
// set, each keeping neighbours from both being occupied.
ghost use Rattle.std.specs.Prelude.{◌≡◌, ℕ, ◌≤◌, true, ◌&&◌, length, IfOk, if◌then◌else◌, nat_lt, slice_index, slice_set};
ghost use Rattle.std.proofs.Common.{subst, ap, sym, ◌∙◌, rules};
ghost use Rattle.independent_sets.specs.Independent.{checkerboard, free, independent, independent_sets, may_follow, white};
ghost use Rattle.independent_sets.specs.Sets.{rule_extent, state_cells, state_extent};
ghost use Rattle.lattice.specs.Grid.{cell_count, Extent};
ghost use Rattle.lattice.specs.Words.{middle_level};
ghost use Rattle.lattice.specs.Shapes.{extent_of};
ghost use Rattle.independent_sets.specs.Laws;
ghost use Rattle.lattice.specs.Kind.{Lawful};
ghost use Rattle.independent_sets.specs.Laws.{lawful_from};

use super::IndependentSets;
use crate::state::IndependentSet;
use lattice::fault::StateFault;
use lattice::grid::Grid;
use lattice::kind::Kind;
use lattice::shape::{DIRECTIONS, Shape};
use lattice::words::{MIDDLE_LEVEL, split};
use std::alloc::{AllocError, Global};

// Whether the cell's row and column add up to an even number.
fn is_white(shape: &Shape, cell: usize) -> bool
    ensures { result ≡ white (extent_of shape.now) cell }
{
    let (_, columns) = shape.sides();
    (cell / columns + cell % columns) % 2 == 0
}

// Whether the cells beside this one are empty, as far as they are given.
fn is_free(shape: &Shape, cells: &[u8], cell: usize) -> bool
    ensures { result ≡ free (extent_of shape.now) cells.now cell }
{
    for shift in DIRECTIONS {
        if let Some(neighbour) = shape.beside(cell, shift)
            && cells.get(neighbour).copied().unwrap_or(0) != 0
        {
            return false;
        }
    }
    true
}

// Whether the next cell after these may hold the value.
fn may_follow(shape: &Shape, before: &[u8], value: u8) -> bool
    ensures { result ≡ may_follow (extent_of shape.now) before.now value }
{
    value == 0 || value == 1 && is_free(shape, before, before.len())
}

impl IndependentSet {
    // The black cells alone occupied.
    fn new(heap: Global, shape: Shape) -> Result<IndependentSet, AllocError>
        ensures { IfOk result (λ s. (state_cells s ≡ checkerboard (extent_of shape) 0 1) × (state_extent s ≡ extent_of shape)) }
    {
        let grid = Grid::new(heap, shape)?;
        let mut set = IndependentSet { grid };
        set.fill_colour(false);
        Ok(set)
    }

    // Occupies the white cells alone where `light`, else the black ones alone.
    fn fill_colour(&mut self, light: bool)
        ensures writes { state_cells self.new ≡ checkerboard (state_extent self.old) (if light then 1 else 0) (if light then 0 else 1) }
        ensures keeps { state_extent self.new ≡ state_extent self.old }
    {
        let shape = self.grid.shape();
        self.grid
            .fill_with(|cell| u8::from(is_white(&shape, cell) == light));
    }

    // Empties a cell, or occupies one whose neighbours are all empty.
    fn put(&mut self, cell: usize, occupied: bool)
        requires { occupied ≡ true → free (state_extent self.old) (state_cells self.old) cell ≡ true }
        ensures writes { state_cells self.new ≡ slice_set (state_cells self.old) cell (if occupied then 1 else 0) }
        ensures keeps { state_extent self.new ≡ state_extent self.old }
    {
        self.grid.put(cell, u8::from(occupied));
    }

    // Whether the level fills the site, and not clears it.
    fn fills(&self, site: usize, level: u32) -> bool
        ensures { result ≡ (nat_lt level middle_level && free (state_extent self.now) (state_cells self.now) site) }
    {
        level < MIDDLE_LEVEL && is_free(&self.grid.shape(), self.grid.as_slice(), site)
    }

    // Takes cells that were found to be lawful.
    fn take_cells(&mut self, cells: &[u8])
        requires each { length cells.now ≡ cell_count (state_extent self.old) }
        requires bits { (i : ℕ) → slice_index cells.now i ≤ 1 }
        requires apart { independent (state_extent self.old) cells.now ≡ true }
        ensures writes { state_cells self.new ≡ cells.now }
        ensures keeps { state_extent self.new ≡ state_extent self.old }
    {
        self.grid.copy_from(cells);
    }
}

impl Kind for IndependentSets {
    type State = IndependentSet;

    const CODE: u8 = 3;

    ghost CODE = { 3 };

    const WIDTH: u8 = 1;

    ghost WIDTH = { 1 };

    ghost meaning = { λ k. independent_sets (rule_extent k) };

    ghost extent = { rule_extent };

    ghost cells = { state_cells };

    ghost carried = { state_extent };

    fn shape(&self) -> Shape {
        self.shape
    }

    fn shape_of(state: &IndependentSet) -> Shape {
        state.grid.shape()
    }

    fn new_state(&self, heap: Global) -> Result<IndependentSet, StateFault> {
        Ok(IndependentSet::new(heap, self.shape)?)
    }

    fn set_bottom(&self, state: &mut IndependentSet) -> Result<(), StateFault> {
        state.grid.check_shape(&self.shape)?;
        state.fill_colour(false);
        Ok(())
    }

    fn set_top(&self, state: &mut IndependentSet) -> Result<(), StateFault> {
        state.grid.check_shape(&self.shape)?;
        state.fill_colour(true);
        Ok(())
    }

    fn apply(&self, state: &mut IndependentSet, word: u64) -> Result<(), StateFault> {
        state.grid.check_shape(&self.shape)?;
        let (site, level) = split(word, self.shape.cell_count());
        let fills = state.fills(site as usize, level);
        state.put(site as usize, fills);
        Ok(())
    }

    fn equal(&self, first: &IndependentSet, second: &IndependentSet) -> Result<bool, StateFault> {
        first.grid.same_of(&self.shape, &second.grid)
    }

    fn cell(&self, state: &IndependentSet, index: u64) -> Result<u8, StateFault> {
        state.grid.cell_of(&self.shape, index)
    }

    fn load(&self, state: &mut IndependentSet, bytes: &[u8]) -> Result<(), StateFault> {
        let cells = state.grid.bytes_to_load(&self.shape, bytes)?;
        for (cell, value) in cells.iter().enumerate() {
            if !may_follow(&self.shape, &cells[..cell], *value) {
                return Err(StateFault::Unlawful { cell });
            }
        }
        state.take_cells(cells);
        Ok(())
    }

    ghost ordered = { λ k. Laws.ordered (rule_extent k) };

    ghost bounded = { λ k. Laws.bounded (rule_extent k) };

    ghost closed = { λ k. Laws.closed (rule_extent k) };

    ghost monotone = { λ k. Laws.monotone (rule_extent k) };

    ghost distinct = { λ k. Laws.distinct (rule_extent k) };

    ghost shared = { λ j k same x h. subst (λ (e : Extent). Lawful (independent_sets e) x) same h };

    ghost sized = { λ k. Laws.sized (rule_extent k) };

    ghost lawful = { λ k s same. lawful_from (rule_extent k) (state_cells s) (sym s.grid.cells.ok.0 ∙ s.grid.sized ∙ ap cell_count same) s.bits (subst (λ (e : Extent). independent e (state_cells s) ≡ true) same s.apart) };

    ghost in_range = { Prim.search rules };

    ghost carried_in_range = { Prim.search rules };

    ghost encoded = { Prim.search rules };
}
