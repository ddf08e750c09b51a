// The words of a line, and numbers in words.
#![tactic(auto)]

pub mod numbers;
pub mod parts;
pub mod types;
