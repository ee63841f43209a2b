// Demand 3 for the code itself: what the promises of reset, step and onward say of a run. No code.
#![tactic(auto)]
