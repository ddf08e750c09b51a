// The answers to a script's commands, a line each in a lent buffer: see specs/.
#![tactic(auto)]

pub mod answers;
pub mod words;
