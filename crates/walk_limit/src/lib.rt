// Which back steps count at a node in the search for the first walk: for each node entered, below which place a step into it must leave
// (pick_laws/Demands). `ways` has for each number of steps the nodes from which exactly so many forward steps end the walk (walk_ways), `wide` how
// far the last of so many steps can open (walk_wide).
#![tactic(auto)]

ghost use Rattle.std.specs.Prelude.{◌≡◌, ◌<◌, min, length};
ghost use Rattle.walk_reach.specs.Layers.{Written};
ghost use Rattle.walk_limit.specs.Limits.{starting_limit_at, limit_at, limit_among};

use edge_word::NODES;
use pick_laws::Going;
use walk_nodes::capped;
use walk_reach::fill_words;
use word_list::{has_bit, word_at};

// Below which place a first step into y must leave if it is a back one: the walk's last step must open it.
fn starting_limit(wide: &[u64], r: usize, y: usize) -> u64
    requires { y < 64 }
    ensures { result ≡ starting_limit_at wide.now r y }
{
    if r == 0 {
        return 0;
    }
    if r > NODES {
        return 0;
    }
    word_at(wide, (r - 1) * NODES + y)
}

// Below which place a back step into y must leave, where r steps are left after it.
fn limit_at(ways: &[u64], wide: &[u64], r: usize, going: Going, y: usize) -> u64
    requires { y < 64 }
    ensures { result ≡ limit_at ways.now wide.now r going y }
{
    match going {
        Going::Starting => starting_limit(wide, r, y),
        Going::Opening(k) => {
            if has_bit(word_at(ways, r), y as u64) {
                return k;
            }
            0
        }
        Going::Closing => 0,
        Going::Ending(_k) => 0,
    }
}

// The same where y is one of the nodes; no step into another counts. (A struct of what is asked, as in walk_need, would be made for one call and be
// no shorter.)
fn limit_among(ways: &[u64], wide: &[u64], nodes: u64, r: usize, going: Going, y: usize) -> u64
    requires { y < 64 }
    ensures { result ≡ limit_among ways.now wide.now nodes r going y }
{
    if has_bit(nodes, y as u64) {
        return limit_at(ways, wide, r, going, y);
    }
    0
}

// Writes below which place a back step into each node must leave, for as many nodes as there is room for, 64 at most, where r steps are left after
// it; only steps into the nodes of the word count.
pub fn limits_in(ways: &[u64], wide: &[u64], nodes: u64, r: usize, going: Going, limits: &mut [u64])
    ensures { Written (limit_among ways.now wide.now nodes r going) 0 (min (length limits.old) 64)
        limits.old limits.new }
{
    let n = capped(limits.len());
    fill_words(limits, n, |y| limit_among(ways, wide, nodes, r, going, y));
}
