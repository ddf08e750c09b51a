// A drawing in remembered numbers, as the report names vertices: its arrays, and one line of its report.
#![tactic(auto)]

pub mod arrays;
pub mod lines;
