// The starred cases as theorems of the rules: everything is in specs/.
#![tactic(auto)]
