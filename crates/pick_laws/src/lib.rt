// The types of the search for a dangerous walk; its laws are in specs/.
#![tactic(auto)]

// The words that tell a step of a walk: node, place left, place entered, flow.
pub const STEP_WORDS: usize = 4;

// An edge that stands for all edges of its flow from one node to another: the place left, the place entered, and whether the place left is loose
// (W4: it is of kind ks, ps, pu or pd).
#[derive(Clone, Copy)]
pub struct Pick {
    pub leaves: u64,
    pub enters: u64,
    pub loose: bool,
}

// How far the search for the first walk has come: no step is taken yet; the last step is forward and is dangerous with back steps that leave at a
// place below a number; the dangerous pair is there; or the walk began with a back step that left a place.
#[derive(Clone, Copy)]
pub enum Going {
    Starting,
    Opening(u64),
    Closing,
    Ending(u64),
}
