// A name in rows, and escaped: see specs/.
#![tactic(auto)]

pub mod columns;
pub mod escape;
pub mod rows;
