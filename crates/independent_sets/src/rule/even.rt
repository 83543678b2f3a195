// Independent sets are an even kind: filling a site and clearing it undo one another.
use super::IndependentSets;
use lattice::even::Even;

impl Even for IndependentSets {
    fn exchanges(&self) {}
}
