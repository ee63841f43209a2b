// The whole case of document 01, computed from the definitions of the trail. No code.
#![tactic(auto)]
