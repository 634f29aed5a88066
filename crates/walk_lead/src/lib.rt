// To which nodes dangerous pairs lead, and from which nodes on a pair may come in the middle. Edges are words in two tables, one word for each flow
// and pair of nodes (edge_word); `rows` has for each node the nodes to which a forward edge goes from it (walk_reach). A set of nodes is a word.
//
// A dangerous pair is a forward edge from u to v and a back edge from v to w after it (W4); it leads from u to w.
#![tactic(auto)]

ghost use Rattle.std.specs.Prelude.{◌≡◌, ◌≤◌, ◌<◌};
ghost use Rattle.walk_nodes.specs.Nodes.{with_node, rows_in};
ghost use Rattle.walk_reach.specs.Layers.{joined_row, rows_filled};
ghost use Rattle.walk_lead.specs.Leads.{leads_along, leads_through, leads_on, lead_row, leads_filled, earliest, early_filled};
ghost use Rattle.walk_lead.specs.Leads.{layers_at, wraps_from, wraps_among, wrap_start};

use edge_opens::{dangerous, leaves_at, opens_below};
use edge_word::{NODES, PLACES};
use walk_nodes::{capped, rows_in, with_node};
use walk_reach::{joined_rows, layer_at, node_row, rows_by};
use word_list::word_at;

// A node, and the nodes to which back edges go from it.
#[derive(Clone, Copy)]
struct Turn<'a> {
    backs: &'a [u64],
    v: usize,
    nodes: u64,
    ghost is_node: { v < 64 },
    ghost row_told: { nodes ≡ joined_row backs.now v },
}

impl<'a> Turn<'a> {
    // Node v, where the list has the row of each node.
    fn listed(backs: &'a [u64], turns: &[u64; NODES], v: usize) -> Turn<'a>
        requires { (v < 64) × (turns.now ≡ rows_filled backs.now) }
        ensures { (result.backs.now ≡ backs.now) × (result.v ≡ v) }
    {
        Turn {
            backs,
            v,
            nodes: turns[v],
        }
    }

    // Node v with its row worked out.
    fn worked(backs: &'a [u64], v: usize) -> Turn<'a>
        requires { v < 64 }
        ensures { (result.backs.now ≡ backs.now) × (result.v ≡ v) }
    {
        Turn {
            backs,
            v,
            nodes: node_row(backs, v),
        }
    }

    // The nodes of a word, and node w too where the forward edge of word e to v and the back edge from v to w are dangerous.
    fn with_lead(&self, e: u64, word: u64, w: usize) -> u64
        requires { w < 64 }
        ensures { result ≡ with_node word (leads_along self.now.backs.now e self.now.v w) w }
    {
        let c = word_at(self.backs, self.v * NODES + w);
        with_node(word, dangerous(e, c), w)
    }

    // The nodes to which a dangerous pair leads along the forward edge of word e to v. Past the last node to which a back edge goes no word is looked
    // at.
    fn leads_through(&self, e: u64) -> u64
        ensures { result ≡ leads_through self.now.backs.now e self.now.v }
    {
        let mut word: u64 = 0;
        for w in 0..NODES {
            if self.nodes >> w == 0 {
                return word;
            }
            word = self.with_lead(e, word, w);
        }
        word
    }

    // The first place at which a back edge leaves v, or 1024 where none does, as the least of them is taken. Past the last node to which
    // one goes no word is looked at.
    fn first_place(&self) -> u64
        ensures { result ≡ earliest self.now.backs.now self.now.v }
    {
        let mut best = PLACES;
        for w in 0..NODES {
            if self.nodes >> w == 0 {
                return best;
            }
            best = best.min(leaves_at(word_at(self.backs, self.v * NODES + w)));
        }
        best
    }

    // The nodes of a word, and those to which a dangerous pair leads from u by way of v. Most edges are told by the nodes to which back edges go and
    // by the first place that one leaves alone.
    fn lead_onward(&self, forwards: &[u64], early: u64, u: usize, word: u64) -> u64
        requires { (u < 64) × (early ≡ earliest self.now.backs.now self.now.v) }
        ensures { result ≡ leads_on forwards.now self.now.backs.now u self.now.v word }
    {
        if word | self.nodes == word {
            return word;
        }
        let e = word_at(forwards, u * NODES + self.v);
        let opens = opens_below(e);
        if opens <= early {
            return word;
        }
        if opens == PLACES {
            return word | self.nodes;
        }
        word | self.leads_through(e)
    }

    // Whether some dangerous pair by way of v leads from u to one of its nodes in `reach`.
    fn wraps_from(&self, forwards: &[u64], early: u64, reach: &[u64; NODES], u: usize) -> bool
        requires { (u < 64) × (early ≡ earliest self.now.backs.now self.now.v) }
        ensures { result ≡ wraps_from forwards.now self.now.backs.now reach.now self.now.v u }
    {
        let near = reach[u];
        if self.nodes & near == 0 {
            return false;
        }
        let e = word_at(forwards, u * NODES + self.v);
        if opens_below(e) <= early {
            return false;
        }
        self.leads_through(e) & near != 0
    }

    // Whether some dangerous pair by way of v leads from a node to one of its nodes in `reach`.
    fn wraps_at(&self, forwards: &[u64], reach: &[u64; NODES]) -> bool
        ensures { result ≡ wraps_among forwards.now self.now.backs.now reach.now (rows_in forwards.now) self.now.v }
    {
        if self.nodes == 0 {
            return false;
        }
        let early = self.first_place();
        for u in 0..rows_in(forwards) {
            if self.wraps_from(forwards, early, reach, u) {
                return true;
            }
        }
        false
    }
}

// For each node that has a row of back edges the first place at which one leaves it. The list stands beside that of the rows and not in it, since the
// rows are what walk_reach promises.
fn first_places(backs: &[u64], turns: &[u64; NODES]) -> [u64; NODES]
    requires { turns.now ≡ rows_filled backs.now }
    ensures { result ≡ early_filled backs.now }
{
    rows_by(
        rows_in(backs),
        |v| Turn::listed(backs, turns, v).first_place(),
    )
}

// The nodes to which a dangerous pair leads from u.
fn lead_row(
    forwards: &[u64],
    backs: &[u64],
    turns: &[u64; NODES],
    early: &[u64; NODES],
    u: usize,
) -> u64
    requires { (u < 64) × (turns.now ≡ rows_filled backs.now) × (early.now ≡ early_filled backs.now) }
    ensures { result ≡ lead_row forwards.now backs.now u }
{
    let mut word: u64 = 0;
    for v in 0..rows_in(backs) {
        let turn = Turn::listed(backs, turns, v);
        word = turn.lead_onward(forwards, early[v], u, word);
    }
    word
}

// For each node that has a row the nodes to which a dangerous pair leads from it; the other words are 0.
pub fn lead_rows(forwards: &[u64], backs: &[u64]) -> [u64; NODES]
    ensures { result ≡ leads_filled forwards.now backs.now }
{
    let turns = joined_rows(backs);
    let early = first_places(backs, &turns);
    rows_by(
        rows_in(forwards),
        |u| lead_row(forwards, backs, &turns, &early, u),
    )
}

// For each node below n the nodes from which it is reached in at most d steps.
fn layers_at(rows: &[u64], d: usize, n: usize) -> [u64; NODES]
    requires { n ≤ 64 }
    ensures { result ≡ layers_at rows.now d n }
{
    rows_by(n, |u| layer_at(rows, u, d))
}

// The first node below `below`, and below 64, by way of which a dangerous pair leads from a node to one from which that node is reached in at most d
// steps; where there is none, `below` or 64, whichever is less: it is where the walk starts then, and so no None. A closed walk that begins with the
// pair's back edge begins at such a node.
pub fn wrap_start(forwards: &[u64], backs: &[u64], rows: &[u64], d: usize, below: usize) -> usize
    ensures { result ≡ wrap_start forwards.now backs.now rows.now d below }
{
    if below == 0 {
        return 0;
    }
    let end = capped(below);
    let n = rows_in(forwards);
    let reach = layers_at(rows, d, n);
    for v in 0..end {
        if Turn::worked(backs, v).wraps_at(forwards, &reach) {
            return v;
        }
    }
    end
}
