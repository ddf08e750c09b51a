// The text of a plan: its form, reading it, writing it: see specs/.
#![tactic(auto)]
