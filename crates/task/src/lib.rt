// The text of a task: what a line asks for, and the lines of answers.
#![tactic(auto)]

pub mod answers;
mod directives;
mod fields;
pub mod line;
pub mod numerals;
pub mod words;
