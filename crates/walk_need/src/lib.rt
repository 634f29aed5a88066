// Which forward steps count at a node in the search for the first walk: for each node entered, how far a step into it must open (pick_laws/Demands).
// `ways` has for each number of steps the nodes from which exactly so many forward steps end the walk, `opened` those from which so many steps still
// lead through a dangerous pair (walk_ways), `wide` how far the last of so many steps can open (walk_wide).
#![tactic(auto)]

ghost use Rattle.std.specs.Prelude.{cond, ◌≡◌, ◌<◌, ◌≤◌, min, length};
ghost use Rattle.spec_base.specs.Basic.{has};
ghost use Rattle.pick_laws.specs.Demands.{only_if};
ghost use Rattle.walk_reach.specs.Layers.{wide_at, Written};
ghost use Rattle.walk_need.specs.Needs.{leaves_for, first_leaving, opening_need, ending_need, need_at, need_among};

use edge_opens::leaves_at;
use edge_word::{NODES, PLACES};
use pick_laws::Going;
use walk_nodes::capped;
use walk_reach::fill_words;
use word_list::{has_bit, word_at};

// Further than any edge opens: no step counts that needs so much. A number and not None, since what a step opens is compared with its need alone.
const NEVER: u64 = 1025;

// The place at which a back edge leaves x for y, where y is one of the nodes; else 1024.
fn leaves_for(backs: &[u64], nodes: u64, x: usize, y: usize) -> u64
    requires { (x < 64) × (y < 64) }
    ensures { (result ≡ leaves_for backs.now nodes x y) × (result ≤ 1024) }
{
    if has_bit(nodes, y as u64) {
        return leaves_at(word_at(backs, x * NODES + y));
    }
    PLACES
}

// The first place at which a back edge leaves x for one of the nodes, or 1024 where none does. No word is looked at where x has no row, or past the
// last of the nodes. A number and no Option: the least of them is taken.
fn first_leaving(backs: &[u64], nodes: u64, x: usize) -> u64
    requires { x < 64 }
    ensures { (result ≡ first_leaving backs.now nodes x) × (result ≤ 1024) }
{
    if backs.len() <= x * NODES {
        return PLACES;
    }
    let mut best = PLACES;
    for y in 0..NODES {
        if nodes >> y == 0 {
            return best;
        }
        best = best.min(leaves_for(backs, nodes, x, y));
    }
    best
}

// How far a step into y must open where the pair is still to come, or where it is the pair's first.
fn opening_need(backs: &[u64], ways: &[u64], opened: &[u64], r: usize, y: usize) -> u64
    requires { y < 64 }
    ensures { result ≡ opening_need backs.now ways.now opened.now r y }
{
    if r == 0 {
        return NEVER;
    }
    if has_bit(word_at(opened, r), y as u64) {
        return 0;
    }
    first_leaving(backs, word_at(ways, r - 1), y) + 1
}

// What is needed where a step counts if the test passed, and else not.
fn only_if(test: bool) -> u64
    ensures { result ≡ only_if test }
{
    if test {
        return 0;
    }
    NEVER
}

// How far the last of r + 1 steps from y can open; 0 past the table, which no place is below: it is compared with places, and so no Option.
fn wide_at(wide: &[u64], r: usize, y: usize) -> u64
    requires { y < 64 }
    ensures { result ≡ wide_at wide.now r y }
{
    if r < NODES {
        return word_at(wide, r * NODES + y);
    }
    0
}

// How far a step into y must open where the walk began with a back step that left place k.
fn ending_need(wide: &[u64], s: usize, k: u64, r: usize, y: usize) -> u64
    requires { y < 64 }
    ensures { result ≡ ending_need wide.now s k r y }
{
    if r == 0 {
        if y == s {
            if k < NEVER {
                return k + 1;
            }
        }
        return NEVER;
    }
    only_if(k < wide_at(wide, r - 1, y))
}

// What is asked of a forward step: the tables that tell it, the node at which the walk ends, the nodes that count, how many steps are left after the
// step, and the phase.
#[derive(Clone, Copy)]
struct Asked<'a> {
    backs: &'a [u64],
    ways: &'a [u64],
    opened: &'a [u64],
    wide: &'a [u64],
    s: usize,
    nodes: u64,
    r: usize,
    going: Going,
}

impl<'a> Asked<'a> {
    // How far a step into y must open.
    fn need_at(&self, y: usize) -> u64
        requires { y < 64 }
        ensures { result ≡ need_at self.now.backs.now self.now.ways.now self.now.opened.now self.now.wide.now self.now.s
            self.now.r self.now.going y }
    {
        match self.going {
            Going::Starting | Going::Opening(_) => {
                opening_need(self.backs, self.ways, self.opened, self.r, y)
            }
            Going::Closing => only_if(has_bit(word_at(self.ways, self.r), y as u64)),
            Going::Ending(k) => ending_need(self.wide, self.s, k, self.r, y),
        }
    }

    // The same where y is one of the nodes; no step into another counts.
    fn need_among(&self, y: usize) -> u64
        requires { y < 64 }
        ensures { result ≡ need_among self.now.backs.now self.now.ways.now self.now.opened.now self.now.wide.now self.now.s
            self.now.nodes self.now.r self.now.going y }
    {
        if has_bit(self.nodes, y as u64) {
            return self.need_at(y);
        }
        NEVER
    }
}

// Writes how far a forward step into each node must open, for as many nodes as there is room for, 64 at most, where r steps are left after it; only
// steps into the nodes of the word count. What is asked stands one by one here, as the promise names it.
pub fn needs_in(
    backs: &[u64],
    ways: &[u64],
    opened: &[u64],
    wide: &[u64],
    s: usize,
    nodes: u64,
    r: usize,
    going: Going,
    needs: &mut [u64],
)
    ensures { Written (need_among backs.now ways.now opened.now wide.now s nodes r going) 0
        (min (length needs.old) 64) needs.old needs.new }
{
    let asked = Asked {
        backs,
        ways,
        opened,
        wide,
        s,
        nodes,
        r,
        going,
    };
    let n = capped(needs.len());
    fill_words(needs, n, |y| asked.need_among(y));
}
