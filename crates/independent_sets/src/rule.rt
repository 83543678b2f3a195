// The rule of independent sets.
use lattice::shape::Shape;

mod even;
mod kind;
mod methods;

#[derive(Clone, Copy)]
pub struct IndependentSets {
    shape: Shape,
}
