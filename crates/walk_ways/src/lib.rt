// Ways of an exact number of forward steps among 64 nodes, and where a dangerous walk of so many steps can start. A set of nodes is a word; `rows`
// has for each node the nodes to which a forward edge goes from it (walk_reach), `leads` those to which a dangerous pair of edges leads from it.
#![tactic(auto)]

ghost use Rattle.std.specs.Prelude.{◌≡◌, ◌≤◌, ◌<◌};
ghost use Rattle.walk_ways.specs.Ways.{ways_to, next_opening, opening, openings, starts_at, first_start};

use edge_word::NODES;
use walk_nodes::{node_word, nodes_into};
use word_list::{has_bit, word_at};

// The words of a table of ways, of 0 to 64 steps, and of one of openings, of 0 to 65.
pub const WAYS: usize = 65;

pub const OPENINGS: usize = 66;

// For each number of steps up to `steps`, and up to 64, the nodes from which exactly so many forward steps lead to s; the other words are 0.
pub fn ways_to(rows: &[u64], s: usize, steps: usize) -> [u64; WAYS]
    ensures { result ≡ ways_to rows.now s steps }
{
    let last = steps.min(NODES);
    let mut ways = [0u64; WAYS];
    let mut nodes = node_word(s);
    ways[0] = nodes;
    for r in 0..last {
        nodes = nodes_into(rows, nodes);
        ways[r + 1] = nodes;
    }
    ways
}

// The nodes that are open with r + 1 steps left, where `nodes` are those with r left.
fn next_opening(rows: &[u64], leads: &[u64], ways: &[u64; WAYS], r: usize, nodes: u64) -> u64
    requires { r ≤ 65 }
    ensures { result ≡ next_opening rows.now leads.now ways.now r nodes }
{
    if r == 0 {
        return 0;
    }
    nodes_into(rows, nodes) | nodes_into(leads, ways[r - 1])
}

// For each number of steps up to `steps`, and up to 65, the open nodes: those from which so many steps lead through a dangerous pair that is still
// to come and complete the walk, where `ways` has for each number of steps the nodes from which so many forward steps end it. The other words are 0.
pub fn openings(rows: &[u64], leads: &[u64], ways: &[u64; WAYS], steps: usize) -> [u64; OPENINGS]
    ensures { result ≡ openings rows.now leads.now ways.now steps }
{
    let last = steps.min(WAYS);
    let mut words = [0u64; OPENINGS];
    let mut nodes: u64 = 0;
    words[0] = nodes;
    for r in 0..last {
        nodes = next_opening(rows, leads, ways, r, nodes);
        words[r + 1] = nodes;
    }
    words
}

// The nodes that are open with so many steps left to s, at least one and at most 65: words alone, where no table is asked for.
fn open_word(rows: &[u64], leads: &[u64], s: usize, steps: usize) -> u64
    requires { (0 < steps) × (steps ≤ 65) }
    ensures { result ≡ opening rows.now leads.now (ways_to rows.now s steps) steps }
{
    let mut nodes: u64 = 0;
    let mut way = node_word(s);
    for _r in 1..steps {
        nodes = nodes_into(rows, nodes) | nodes_into(leads, way);
        way = nodes_into(rows, way);
    }
    nodes
}

// Whether a closed walk of so many steps from s can have its dangerous pair at or after its first step. None can where no forward edge leaves s.
fn starts_at(rows: &[u64], leads: &[u64], s: usize, steps: usize) -> bool
    requires { s < 64 }
    ensures { result ≡ starts_at rows.now leads.now steps s }
{
    if word_at(rows, s) == 0 {
        return false;
    }
    if steps == 0 {
        return false;
    }
    if OPENINGS <= steps {
        return false;
    }
    has_bit(open_word(rows, leads, s, steps), s as u64)
}

// The first node at which a dangerous walk of so many steps can start so, or 64 where there is none: a number and not None, since the search for a
// start on a pair across the end (walk_lead) goes up to it.
pub fn first_start(rows: &[u64], leads: &[u64], steps: usize) -> usize
    ensures { result ≡ first_start rows.now leads.now steps }
{
    for s in 0..NODES {
        if starts_at(rows, leads, s, steps) {
            return s;
        }
    }
    NODES
}
