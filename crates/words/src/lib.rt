// The words in which the definitions are written, and their laws. No code.
#![tactic(auto)]
