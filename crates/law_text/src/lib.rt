// Laws of accepted texts, for the proofs of other crates.
#![tactic(auto)]
