// A command of a script carried out on a sheet, one answer at a time.
#![tactic(auto)]

pub mod call;
pub mod made;
pub mod turn;
