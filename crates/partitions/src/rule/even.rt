// Plane partitions are an even kind: raising a site and lowering it undo one another.
use super::Partitions;
use lattice::even::Even;

impl Even for Partitions {
    fn exchanges(&self) {}
}
