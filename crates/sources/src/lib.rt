// Where words come from: the interface of sources, recordings of bytes, and the counter generator.
#![tactic(auto)]

pub mod counter;
pub mod fault;
pub mod recording;
pub mod source;
