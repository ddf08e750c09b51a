// What is said to a command, and to a whole script: the definitions, the answers that need no call of a sheet, and answers laid into a
// buffer one after another.
#![tactic(auto)]

pub mod lay;
pub mod other;
pub mod types;
