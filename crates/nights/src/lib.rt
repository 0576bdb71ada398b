// Laws only: what the answers of a call of many rows mean.
#![tactic(auto)]
