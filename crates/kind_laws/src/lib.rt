// What the table of kinds rests on, and what it agrees with: the constant in the source (kind_table), and the texts that have its pairs. Laws, in
// specs/.
#![tactic(auto)]
