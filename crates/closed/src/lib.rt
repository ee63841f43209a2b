// Every accepted step gives a configuration on the same tree, and so does reset. Laws on the definitions. No code.
#![tactic(auto)]
