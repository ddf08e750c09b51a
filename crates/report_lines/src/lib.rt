// A drawing's report: the forms of its lines, one line by its number, and all lines one after another.
#![tactic(auto)]

pub mod forms;
pub mod numbered;
pub mod whole;
