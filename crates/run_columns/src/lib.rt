// A run by columns, in run coordinates: offsets, and the ratings of neighbours left and right of a place.
#![tactic(auto)]

mod count;
pub mod counts;
pub mod offsets;
