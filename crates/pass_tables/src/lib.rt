// What the passes hold between two visits: distances, rows of neighbours, runs, marks of unsettled runs, readiness.
#![tactic(auto)]

pub mod distances;
pub mod ready;
pub mod rows;
pub mod runs;
pub mod slack;
