// The rule of plane partitions.
use lattice::shape::Shape;

mod even;
mod kind;
mod methods;

#[derive(Clone, Copy)]
pub struct Partitions {
    shape: Shape,
}
