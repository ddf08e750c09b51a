// The draw: of a stored plan into arrays, and of a sheet.
#![tactic(auto)]

pub mod draw;
pub mod stored;
