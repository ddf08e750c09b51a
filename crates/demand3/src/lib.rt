// Demand 3 of every drawing: see proofs/Theorem.antt.
#![tactic(auto)]
