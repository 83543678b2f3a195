// Spin grids: cells that are down or up, moved by a table of thresholds over the sum of their neighbours.
#![tactic(auto)]

pub mod fault;
pub mod rule;
pub mod state;
pub mod thresholds;
