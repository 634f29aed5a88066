// What the sets of two kinds of statement make of the letters between them: laws, in specs/.
#![tactic(auto)]

// What the rules say of a set of a kind: the kind lacks it; it is any set within the relation's; such a set, but not empty; the relation's own.
#[derive(Clone, Copy)]
pub enum SetClass {
    Lacking,
    Any,
    Filled,
    Whole,
}
