// The outcome of a workload and the report of a text, as docs/MODEL.md tells them: everything is in specs/.
#![tactic(auto)]
