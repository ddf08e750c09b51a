// Numbers of thousandths of a step: see specs/.
#![tactic(auto)]

pub mod attributes;
pub mod thousandths;
