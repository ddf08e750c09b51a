// What a line of a script says.
#![tactic(auto)]

pub mod read;
pub mod types;
