// Laws only: what is joined to a good matrix, beside or below it, makes a good matrix.
#![tactic(auto)]
