// Laws of the words on lists and sets of spec_base; no code.
#![tactic(auto)]
