// Laws only: what the tests and compressed rows mean. No code.
#![tactic(auto)]
