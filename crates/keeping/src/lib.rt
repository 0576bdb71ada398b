// Laws only: a row's step leaves a state, whatever its answer.
#![tactic(auto)]
