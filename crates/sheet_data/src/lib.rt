// A plan and its drawing in arrays, with their counts: whether the drawing is one of that plan, one line and one mark of it.
#![tactic(auto)]

pub mod marked;
pub mod printed;
pub mod valid;
