// Laws only: what the calls of `moves` make, read as a matrix.
#![tactic(auto)]
