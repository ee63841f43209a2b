// Laws of the step, proved from the definitions alone. No code.
#![tactic(auto)]
