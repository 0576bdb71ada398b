// Laws only: rows that are 0 over each other's heads. They are unique for their span, and back substitution makes them.
#![tactic(auto)]
