// Demand 3: no dangerous closed walk, then every schedule has its serial order. Everything is in specs/.
#![tactic(auto)]
