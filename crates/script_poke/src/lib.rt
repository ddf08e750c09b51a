// A stored record altered by hand.
#![tactic(auto)]

pub mod poke;
pub mod put;
pub mod types;
