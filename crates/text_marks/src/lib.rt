// From a plan's text to the positions and the marks of its drawing.
#![tactic(auto)]

pub mod all_marks;
pub mod drawn;
pub mod positions;
