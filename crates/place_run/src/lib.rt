// The call place-run: refusal 8, and one run placed on lent buffers.
#![tactic(auto)]

pub mod call;
pub mod place;
pub mod refusal;
