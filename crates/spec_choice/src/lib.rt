// Which turns and arms an execution takes: everything is in specs/.
#![tactic(auto)]
