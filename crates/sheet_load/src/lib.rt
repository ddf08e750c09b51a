// Load, by either way.
#![tactic(auto)]

pub mod load;
pub mod tangled;
