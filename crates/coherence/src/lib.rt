// Demand 3: coherence on every tree, proved from the definitions of the step. No code.
#![tactic(auto)]
