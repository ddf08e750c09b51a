// The three passes: see specs/.
#![tactic(auto)]
