// The word of an edge between two of 64 nodes, as the two tables of the search hold it, and the edge that it stands for (specs/Coding). The word of
// no edge is 0: a table is one word for each pair of nodes, so an edge or none is a word too, and no Option. Of two edges between the same nodes the
// one with the greater word makes a dangerous pair wherever the other does.
#![tactic(auto)]

ghost use Rattle.std.specs.Prelude.{cond, ◌≡◌};
ghost use Rattle.edge_word.specs.Coding.{forward_word, back_word, forward_edge, back_edge};

use pick_laws::Pick;
use unfold_laws::UNFOLDINGS;

// The nodes of a table, and the pairs of them: the word for the edge from u to v stands at u * 64 + v.
pub const NODES: usize = UNFOLDINGS;

pub const PAIRS: usize = 4096;

// The places of a node for which a word has room, and the last of them.
pub const PLACES: u64 = 1024;

const LAST: u64 = 1023;

// The least word of an edge, and the least one of a forward edge that leaves a loose place.
const EDGE: u64 = 1048576;

const LOOSE_EDGE: u64 = 2097152;

// The word of a forward edge from place i to place j, 0 where none stands. Words and no structs: callers in C lend the tables so. That an edge
// stands is told by a flag beside its places, as promised.
#[tactic(auto, unfolding(crate::specs::Coding::forward_word))]
pub fn forward_word(stands: bool, loose: bool, i: u64, j: u64) -> u64
    ensures { result ≡ cond stands (forward_word loose i j) 0 }
{
    if stands {
        if loose {
            return LOOSE_EDGE + j % PLACES * PLACES + i % PLACES;
        }
        return EDGE + j % PLACES * PLACES + i % PLACES;
    }
    0
}

// The word of a back edge from place k to place l, 0 where none stands.
#[tactic(auto, unfolding(crate::specs::Coding::back_word))]
pub fn back_word(stands: bool, k: u64, l: u64) -> u64
    ensures { result ≡ cond stands (back_word k l) 0 }
{
    if stands {
        return EDGE + (LAST - k % PLACES) * PLACES + l % PLACES;
    }
    0
}

// The forward edge that word x stands for.
#[tactic(auto, unfolding(crate::specs::Coding::forward_edge))]
pub fn forward_edge(x: u64) -> Pick
    ensures { result ≡ forward_edge x }
{
    Pick {
        leaves: x % PLACES,
        enters: x / PLACES % PLACES,
        loose: LOOSE_EDGE <= x,
    }
}

// The back edge that word y stands for.
#[tactic(auto, unfolding(crate::specs::Coding::back_edge))]
pub fn back_edge(y: u64) -> Pick
    ensures { result ≡ back_edge y }
{
    Pick {
        leaves: LAST - y / PLACES % PLACES,
        enters: y % PLACES,
        loose: true,
    }
}
