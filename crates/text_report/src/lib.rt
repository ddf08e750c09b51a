// From a plan's text to its report, with no sheet between; the report of a text that may be tangled, and what the counter prints.
#![tactic(auto)]

pub mod print;
pub mod tangled;
pub mod whole;
