// The list of placings in arrays: made when a pass ends, from the runs in the order of the pass, each placed one with its boxes where they stand then.
#![tactic(auto)]

pub mod entries;
pub mod pass;
pub mod placing;
