// Texts with bytes written as escapes.
#![tactic(auto)]

pub mod texts;
pub mod types;
