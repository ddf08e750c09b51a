// Strands as chains of vertices; classes of strands, and where the strands stand before the classes are shifted.
#![tactic(auto)]

pub mod arrange;
pub mod classes;
pub mod inner;
pub mod links;
pub mod place;
pub mod siblings;
pub mod stand;
pub mod walk;
