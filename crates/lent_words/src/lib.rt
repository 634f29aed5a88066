// What is said of words that a caller lends to work in.
#![tactic(auto)]
