// The program of preliminary positions: see the crate preliminary for what it computes.
#![tactic(auto)]

pub mod positions;
mod side;
