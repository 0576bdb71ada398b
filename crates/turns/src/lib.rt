// Laws only: the sign of a determinant by the order in which rows were accepted.
#![tactic(auto)]
