// Lines by their forms.
#![tactic(auto)]

pub mod forms;
