// Laws only: combinations of rows modulo p, and rows with distinct heads. Nothing of memory, no code.
#![tactic(auto)]
