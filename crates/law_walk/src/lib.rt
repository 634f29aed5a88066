// What Read Committed makes of a closed walk of dependencies, and how a dangerous closed walk is found: everything is in specs/.
#![tactic(auto)]
