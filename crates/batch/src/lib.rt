// Batches of draws: a draw is opened, windows of it are tried until one meets, and it is closed or given up.
#![tactic(auto)]

pub mod draws;
pub mod ends;
pub mod fault;
pub mod outcome;
pub mod setting;
pub mod stage;
