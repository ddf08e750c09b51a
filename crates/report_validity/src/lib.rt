// Refusal 13, of a plan and of a drawing.
#![tactic(auto)]

pub mod decision;
pub mod drawing;
pub mod placings;
pub mod runs;
