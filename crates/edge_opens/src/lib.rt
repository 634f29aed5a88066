// W4 over words (edge_word): how far a forward edge opens, and whether a back edge after it makes the pair dangerous.
#![tactic(auto)]

ghost use Rattle.std.specs.Prelude.{◌≡◌, ◌≤◌};
ghost use Rattle.pick_laws.specs.Pick.{dangerous_picks};
ghost use Rattle.pick_laws.specs.Completing.{opens_below, leaves_at};
ghost use Rattle.edge_word.specs.Coding.{forward_pick, back_pick};

use edge_word::{PLACES, back_edge, forward_edge};

// W4: a back edge that leaves at a place below this is dangerous after the forward edge of the word; 0 for no edge. A number and not an Option: the
// search takes the greatest of them.
pub fn opens_below(word: u64) -> u64
    ensures { result ≡ opens_below (forward_pick word) }
{
    if word == 0 {
        return 0;
    }
    let e = forward_edge(word);
    if e.loose {
        return PLACES;
    }
    e.enters
}

// The place at which the back edge of a word leaves; 1024 where there is no edge. A number and not an Option: the search takes the least of them.
pub fn leaves_at(word: u64) -> u64
    ensures { (result ≡ leaves_at (back_pick word)) × (result ≤ 1024) }
{
    if word == 0 {
        return PLACES;
    }
    back_edge(word).leaves
}

// Whether the forward edge of word x and the back edge of word y after it are dangerous (W4): the back edge leaves at an earlier place than the
// forward edge enters, or the forward edge leaves a loose place.
pub fn dangerous(x: u64, y: u64) -> bool
    ensures { result ≡ dangerous_picks (forward_pick x) (back_pick y) }
{
    if x == 0 {
        return false;
    }
    if y == 0 {
        return false;
    }
    let e = forward_edge(x);
    let c = back_edge(y);
    if c.leaves < e.enters {
        return true;
    }
    e.loose
}
