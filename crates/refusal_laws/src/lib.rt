// Laws alone: the number and the line of a refused text.
#![tactic(auto)]
