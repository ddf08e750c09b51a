// A plan's data and what is asked of them: see specs/.
#![tactic(auto)]

pub mod data;
pub mod distances;
pub mod limits;
pub mod numbers;
pub mod questions;
pub mod walk;
