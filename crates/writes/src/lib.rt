// What each kind writes and what it leaves alone, as laws on the definitions. No code.
#![tactic(auto)]
