// Carries out a task: takes its directives in order, calls the libraries, and writes the answers to any output.
#![tactic(auto)]

mod answered;
mod batches;
mod console;
mod draw_lines;
mod drawable;
pub mod input;
pub mod moves;
mod print;
pub mod progress;
mod requests;
pub mod rules;
pub mod stage;
pub mod stages;
pub mod trace;
pub mod trouble;
