// The visits of one pass: which runs are placed, level by level, "Runs go left to right".
#![tactic(auto)]

pub mod level;
pub mod pass;
pub mod visit;
