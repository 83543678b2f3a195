// The rule of spin grids.
use crate::thresholds::Thresholds;
use lattice::shape::Shape;

mod kind;
mod methods;

#[derive(Clone, Copy)]
pub struct Spins {
    shape: Shape,
    thresholds: Thresholds,
}
