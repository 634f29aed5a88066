// Schedules, Read Committed and the serial run, as docs/MODEL.md tells them: everything is in specs/.
#![tactic(auto)]
