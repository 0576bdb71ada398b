// Laws only: what None means after rows, inserted columns and back substitutions in any order.
#![tactic(auto)]
