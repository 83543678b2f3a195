// Independent sets of a grid: cells that are empty or occupied, no two neighbours both occupied.
#![tactic(auto)]

pub mod rule;
pub mod state;
