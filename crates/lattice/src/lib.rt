// What is written once for all kinds of states: the split of a word, grids and their neighbours, refusals, and the
// interface of a kind with its laws. It knows no kind in particular.
#![tactic(auto)]

pub mod even;
pub mod fault;
pub mod grid;
pub mod kind;
pub mod shape;
pub mod words;
