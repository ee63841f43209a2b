// The starred cases of document 01, proved from the definitions. No code.
#![tactic(auto)]
