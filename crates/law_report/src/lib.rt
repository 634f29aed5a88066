// What follows of reports: every text has one, any two are equal, and the walk in it has at most 65 steps. Everything is in specs/.
#![tactic(auto)]
