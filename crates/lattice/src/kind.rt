// The interface of a kind: a rule, the states that it moves, what they mean, and the laws that make sampling exact.
ghost use Rattle.std.specs.Prelude.{◌≡◌, ℕ, List, take, MatchResult};
ghost use Rattle.lattice.specs.Calls.{EqualAnswers, LoadAnswers, cell_answer, owner_answer};
ghost use Rattle.lattice.specs.Faults.{state_refusal};
ghost use Rattle.lattice.specs.Grid.{Extent, InRange, agree, cell_count};
ghost use Rattle.lattice.specs.Kind.{Bounded, Closed, Coded, Distinct, Lawful, Meaning, Monotone, Ordered, Sized};
ghost use Rattle.lattice.specs.Shapes.{extent_of};
ghost use Rattle.refusal.specs.Refusals.{answer, left_by};

use crate::fault::StateFault;
use crate::shape::Shape;
use std::alloc::Global;

pub trait Kind {
    type State: Drop;

    // The kind's number, 1 to 63.
    const CODE: u8;

    ghost CODE: { ℕ };

    // How many bits the value of a cell takes, 1 to 8.
    const WIDTH: u8;

    ghost WIDTH: { ℕ };

    ghost meaning: { Self → Meaning };

    // The sides and cap of a rule.
    ghost extent: { Self → Extent };

    // The cell values of a state.
    ghost cells: { Self.State → List ℕ };

    // The sides and cap that a state carries. It belongs to the rules whose extent this is.
    ghost carried: { Self.State → Extent };

    // Sides and cap of the rule.
    fn shape(&self) -> Shape
        ensures { extent_of result ≡ extent self.now };

    // Sides and cap that a state carries.
    fn shape_of(state: &Self::State) -> Shape
        ensures { extent_of result ≡ carried state.now };

    final fn kind_code(&self) -> u8
        ensures { result ≡ CODE }
    {
        Self::CODE
    }

    final fn cell_width(&self) -> u8
        ensures { result ≡ WIDTH }
    {
        Self::WIDTH
    }

    // Rows and columns.
    final fn sides(&self) -> (usize, usize)
        ensures { result ≡ ((extent self.now).rows, (extent self.now).columns) }
    {
        self.shape().sides()
    }

    final fn cap(&self) -> u8
        ensures { result ≡ (extent self.now).largest }
    {
        self.shape().cap()
    }

    final fn cell_count(&self) -> u32
        ensures { result ≡ cell_count (extent self.now) }
    {
        self.shape().cell_count()
    }

    // Whether the state is the rule's: whether its sides and cap are.
    final fn owns(&self, state: &Self::State) -> bool
        ensures { result ≡ agree (extent self.now) (carried state.now) }
    {
        self.shape().agrees(&Self::shape_of(state))
    }

    // A state of this rule, as the bottom.
    fn new_state(&self, heap: Global) -> Result<Self::State, StateFault>
        ensures { MatchResult result (λ s. (cells s ≡ (meaning self.now).bottom) × (carried s ≡ extent self.now)) (λ e. e ≡ StateFault.Memory) };

    // Makes the state the bottom.
    fn set_bottom(&self, state: &mut Self::State) -> Result<(), StateFault>
        ensures answers { answer (λ u. u) state_refusal result ≡ owner_answer (extent self.now) (carried state.old) }
        ensures leaves { cells state.new ≡ left_by (answer (λ u. u) state_refusal result) (meaning self.now).bottom (cells state.old) }
        ensures keeps { carried state.new ≡ carried state.old };

    // Makes the state the top.
    fn set_top(&self, state: &mut Self::State) -> Result<(), StateFault>
        ensures answers { answer (λ u. u) state_refusal result ≡ owner_answer (extent self.now) (carried state.old) }
        ensures leaves { cells state.new ≡ left_by (answer (λ u. u) state_refusal result) (meaning self.now).top (cells state.old) }
        ensures keeps { carried state.new ≡ carried state.old };

    // Moves the state by a word.
    fn apply(&self, state: &mut Self::State, word: u64) -> Result<(), StateFault>
        ensures answers { answer (λ u. u) state_refusal result ≡ owner_answer (extent self.now) (carried state.old) }
        ensures leaves { cells state.new ≡ left_by (answer (λ u. u) state_refusal result) ((meaning self.now).step word (cells state.old)) (cells state.old) }
        ensures keeps { carried state.new ≡ carried state.old };

    // Whether two states of this rule are equal.
    fn equal(&self, first: &Self::State, second: &Self::State) -> Result<bool, StateFault>
        ensures { EqualAnswers (extent self.now) (carried first.now) (carried second.now) (cells first.now) (cells second.now) (answer (λ t. t) state_refusal result) };

    // The value of one cell.
    fn cell(&self, state: &Self::State, index: u64) -> Result<u8, StateFault>
        ensures { answer (λ v. v) state_refusal result ≡ cell_answer (extent self.now) (carried state.now) (cells state.now) index };

    // Makes the state the one with these cells, a byte each; bytes beyond the cells are passed over.
    fn load(&self, state: &mut Self::State, bytes: &[u8]) -> Result<(), StateFault>
        ensures answers { LoadAnswers (meaning self.now) (extent self.now) (carried state.old) bytes.now (answer (λ u. u) state_refusal result) }
        ensures leaves { cells state.new ≡ left_by (answer (λ u. u) state_refusal result) (take (cell_count (extent self.now)) bytes.now) (cells state.old) }
        ensures keeps { carried state.new ≡ carried state.old };

    ghost ordered: { (k : Self) → Ordered (meaning k) };

    ghost bounded: { (k : Self) → Bounded (meaning k) };

    ghost closed: { (k : Self) → Closed (meaning k) };

    ghost monotone: { (k : Self) → Monotone (meaning k) };

    ghost distinct: { (k : Self) → Distinct (meaning k).states };

    ghost shared: { (j k : Self) → extent j ≡ extent k → (x : List ℕ) → Lawful (meaning j) x → Lawful (meaning k) x };

    ghost sized: { (k : Self) → Sized (meaning k) (extent k) WIDTH };

    ghost lawful: { (k : Self) → (s : Self.State) → carried s ≡ extent k → Lawful (meaning k) (cells s) };

    ghost in_range: { (k : Self) → InRange (extent k) };

    ghost carried_in_range: { (s : Self.State) → InRange (carried s) };

    ghost encoded: { Coded CODE WIDTH };
}
