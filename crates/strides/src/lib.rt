// Laws only: each call that takes rows is a run of single steps.
#![tactic(auto)]
