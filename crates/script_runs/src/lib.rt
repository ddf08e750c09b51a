// What the words of a command placerun say.
#![tactic(auto)]

pub mod lists;
pub mod names;
pub mod runs;
pub mod types;
