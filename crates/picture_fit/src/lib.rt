// A picture in a lent buffer that has room for it or not: see specs/.
#![tactic(auto)]

pub mod fit;
pub mod types;
