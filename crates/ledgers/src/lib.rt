// Laws only: the account that our own reduction writes is one the account check says yes to.
#![tactic(auto)]
