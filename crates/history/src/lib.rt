// Demand 3, what holds after any run, is proved in proofs/. There is no code here.
#![tactic(auto)]
