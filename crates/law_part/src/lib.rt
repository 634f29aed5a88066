// Laws alone: parts of a graph and of a workload, and graphs without an arm (Req 06).
#![tactic(auto)]
