// Laws alone: what the nodes of a workload that some text gives have in common.
#![tactic(auto)]
