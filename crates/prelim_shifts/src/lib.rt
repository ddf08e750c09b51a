// By how much each class shifts, and the shifts.
#![tactic(auto)]

pub mod collect;
pub mod keys;
pub mod middle;
pub mod shift;
