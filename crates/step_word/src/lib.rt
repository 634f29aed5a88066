// The word of a step out of a node, ordered by the place left, the place entered, the flow (forward before back) and the node entered (Req 01): the
// lesser word is the lesser step, and the search takes the least of many by comparing words alone. Places count modulo 1024 and nodes modulo 64.
#![tactic(auto)]

ghost use Rattle.std.specs.Prelude.{◌≡◌};
ghost use Rattle.step_word.specs.StepWord.{flow_of, step_word, step_of};

use edge_word::{NODES, PLACES};

// What the place left, the place entered and a back edge count in a step's word.
pub const LEAVES: u64 = 131072;

const ENTERS: u64 = 128;

const BACK: u64 = 64;

// Greater than the word of every step: no step. A word and not None, since the least of the words is taken.
pub const NO_STEP: u64 = 134217728;

// A step out of a node: the place left, the place entered, whether it is a back edge, and the node entered.
#[derive(Clone, Copy)]
pub struct Taken {
    pub leaves: u64,
    pub enters: u64,
    pub back: bool,
    pub into: usize,
}

// The word of a step.
#[tactic(auto, unfolding(crate::specs::StepWord::step_word))]
pub fn step_word(leaves: u64, enters: u64, back: bool, into: u64) -> u64
    ensures { result ≡ step_word leaves enters (flow_of back) into }
{
    let w = leaves % PLACES * LEAVES + enters % PLACES * ENTERS;
    let y = into % NODES as u64;
    if back {
        return w + BACK + y;
    }
    w + y
}

// The step that a word stands for.
#[tactic(auto, unfolding(crate::specs::StepWord::step_of))]
pub fn step_of(word: u64) -> Taken
    ensures { result ≡ step_of word }
{
    Taken {
        leaves: word / LEAVES % PLACES,
        enters: word / ENTERS % PLACES,
        back: word / BACK % 2 == 1,
        into: (word % NODES as u64) as usize,
    }
}
