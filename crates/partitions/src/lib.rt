// Plane partitions in a box: heights that never rise along a row or down a column, moved by one up or down.
#![tactic(auto)]

pub mod rule;
pub mod state;
