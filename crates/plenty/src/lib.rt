// Laws only: with enough room a reduction from a fresh start takes every row, and all lists that are lent keep their lengths.
#![tactic(auto)]
