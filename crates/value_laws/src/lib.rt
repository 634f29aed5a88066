// A text is its lines written out, and lines written out are read back: everything is in specs/.
#![tactic(auto)]
