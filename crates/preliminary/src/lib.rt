// Preliminary positions: see specs/.
#![tactic(auto)]
