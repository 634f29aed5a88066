// Laws alone: the table of a workload's places.
#![tactic(auto)]
