// The title and the label of a box: see specs/.
#![tactic(auto)]

pub mod element;
pub mod label;
pub mod sizes;
