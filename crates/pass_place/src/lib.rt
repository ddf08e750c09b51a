// Placing one run where the passes are: from what they hold to what they hold afterwards.
#![tactic(auto)]

pub mod one;
pub mod outcome;
pub mod request;
