// A text that names boxes: see specs/.
#![tactic(auto)]

pub mod chars;
pub mod index;
pub mod line;
pub mod types;
