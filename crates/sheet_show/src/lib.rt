// The calls that show a sheet: its report's lines and its marks.
#![tactic(auto)]

pub mod all_marks;
pub mod line;
pub mod mark;
pub mod whole;
