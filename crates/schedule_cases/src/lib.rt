// Closed cases of the schedules, Read Committed and the serial run, beyond those that the edits of spec_schedule need: everything is in specs/.
#![tactic(auto)]
