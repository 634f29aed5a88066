// Closed cases of the rules on the text, beyond those that the edits of spec_text need: everything is in specs/.
#![tactic(auto)]
