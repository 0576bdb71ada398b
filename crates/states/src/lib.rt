// Laws only: what a state of the reducer's memory gives a step.
#![tactic(auto)]
