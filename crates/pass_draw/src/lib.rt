// The draw of a plan's lists: preliminary positions, then the three passes.
#![tactic(auto)]

pub mod draw;
pub mod three;
