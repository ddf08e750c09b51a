// Placing a run by halves, and where two halves meet.
#![tactic(auto)]

pub mod halves;
pub mod meet;
mod middle;
