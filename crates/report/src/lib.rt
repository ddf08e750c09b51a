// The report's lines, a drawing in arrays, refusal 13, and document 01's cases: see specs/.
#![tactic(auto)]

pub mod data;
