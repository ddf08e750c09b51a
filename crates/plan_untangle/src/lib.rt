// A tangled plan rearranged, its vertices renumbered and its segments sorted anew.
#![tactic(auto)]

pub mod order;
pub mod share;
pub mod untangle;
