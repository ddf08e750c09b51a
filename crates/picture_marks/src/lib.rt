// A whole drawing as a picture: see specs/.
#![tactic(auto)]

pub mod document;
pub mod picture;
pub mod walks;
