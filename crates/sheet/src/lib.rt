// The sheet and clear, what draw asks and leaves, and what is printed of an answer.
#![tactic(auto)]

pub mod changed;
pub mod clear;
pub mod numbered;
pub mod printed;
pub mod refusals;
pub mod types;
