// Lists and sets, for definitions and laws: everything is in specs/.
#![tactic(auto)]
