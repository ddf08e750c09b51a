// Checks 3 to 6 in their order; the level and the height of every vertex.
#![tactic(auto)]

pub mod checks;
pub mod levels;
pub mod vias;
