// The elements of a picture: see specs/.
#![tactic(auto)]

pub mod elements;
