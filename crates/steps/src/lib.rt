// Laws only: what one row's step against U means. Nothing of memory, no code.
#![tactic(auto)]
