// A rich schedule of a robust workload, joined to demand 3: everything is in specs/.
#![tactic(auto)]
