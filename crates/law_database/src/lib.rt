// Laws alone: what a robust workload keeps off the statements with a predicate, which a database may overtake halfway.
#![tactic(auto)]
