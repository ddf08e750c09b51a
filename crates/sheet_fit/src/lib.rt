// What is shown in a lent buffer, if it has room.
#![tactic(auto)]

pub mod fit;
