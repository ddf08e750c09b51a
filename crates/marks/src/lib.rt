// The marks of a drawing, for a screen: see specs/.
#![tactic(auto)]

pub mod marks;
pub mod put;
pub mod types;
