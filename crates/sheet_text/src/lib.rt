// The calls that give back the plan text as it was read.
#![tactic(auto)]

pub mod back;
pub mod line;
pub mod read;
pub mod refusal;
pub mod whole;
