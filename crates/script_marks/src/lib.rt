// The words of a mark, said exactly from f64, in a lent buffer: see specs/.
#![tactic(auto)]

pub mod mark_words;
pub mod numbers;
