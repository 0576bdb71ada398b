// Laws only: what every other crate cites of lists, finite sums and remainders. No code.
#![tactic(auto)]
