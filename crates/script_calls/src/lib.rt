// Answers of calls, of walks and of place-run written.
#![tactic(auto)]

pub mod reply;
pub mod run_call;
pub mod walk_call;
