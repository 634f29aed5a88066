// Unfoldings, edges and walks of a workload, as docs/MODEL.md tells them: everything is in specs/.
#![tactic(auto)]
