// A plan's text: its numbers, its lines, and a text written again.
#![tactic(auto)]

pub mod again;
pub mod lines;
pub mod number;
