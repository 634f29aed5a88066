// Parts of a workload by its programs, and graphs without an arm, as Req 06 has them: everything is in specs/.
#![tactic(auto)]
