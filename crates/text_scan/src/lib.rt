// What stands at a position of a plan text, and whether it is within its limits.
#![tactic(auto)]

pub mod limits;
pub mod scanners;
