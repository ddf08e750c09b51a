// From a plan's text and a text of names to the picture: see specs/.
#![tactic(auto)]

pub mod print;
pub mod whole;
