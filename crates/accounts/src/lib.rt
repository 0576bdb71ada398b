// Laws only: when an account is right, and that in a right account None means a combination of the rows accepted before.
#![tactic(auto)]
