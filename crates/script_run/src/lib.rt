// Whole scripts: their answers in a lent buffer.
#![tactic(auto)]

pub mod script;
pub mod types;
