// Closed cases of unfoldings, edges and walks, beyond those that the edits of spec_graph need: everything is in specs/.
#![tactic(auto)]
