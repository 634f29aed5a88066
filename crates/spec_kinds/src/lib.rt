// What can be said of a letter between two kinds of statement, over all sets that the rules allow them. Believed.
#![tactic(auto)]

// The letter holds for no sets; for all; exactly where its two sets meet, which some do and others do not. What each means: specs/Meaning.
#[derive(Clone, Copy)]
pub enum Chance {
    Impossible,
    Certain,
    Hanging,
}
