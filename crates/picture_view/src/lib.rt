// The measure of a drawing, how far it reaches, and the first lines of its picture: see specs/.
#![tactic(auto)]

pub mod bounds;
pub mod head;
