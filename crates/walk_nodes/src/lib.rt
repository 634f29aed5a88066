// Sets of nodes as words, since 64 nodes fit in one: one of them, a node more, the nodes with an edge into some. A table that holds a word
// for each pair of nodes (edge_word) need only be as long as the rows of its nodes.
#![tactic(auto)]

ghost use Rattle.std.specs.Prelude.{cond, ◌≡◌, ◌≤◌, min};
ghost use Rattle.std.specs.Int.Bits.{bit_or};
ghost use Rattle.walk_nodes.specs.Nodes.{rows_in, nodes_into, node_word, grown};

use edge_word::NODES;

// How many rows of 64 words a table has, the last of them perhaps in part, and at most 64.
#[tactic(auto, unfolding(crate::specs::Nodes::rows_in))]
pub fn rows_in(table: &[u64]) -> usize
    ensures { (result ≡ rows_in table.now) × (result ≤ 64) }
{
    ((table.len() + 63) / NODES).min(NODES)
}

// A number, but at most 64.
pub fn capped(x: usize) -> usize
    ensures { result ≡ min x 64 }
{
    x.min(NODES)
}

// The word of node u alone; none where u is no node.
pub fn node_word(u: usize) -> u64
    ensures { result ≡ node_word u }
{
    if u < NODES {
        return 1u64 << u;
    }
    0
}

// The nodes of a word, and node k too where the test passed and k is one of the 64.
pub fn with_node(word: u64, test: bool, k: usize) -> u64
    ensures { result ≡ cond test (bit_or word (node_word k)) word }
{
    if test {
        return word | node_word(k);
    }
    word
}

// The nodes whose row has one of the nodes.
pub fn nodes_into(rows: &[u64], nodes: u64) -> u64
    ensures { result ≡ nodes_into rows.now nodes }
{
    let mut word: u64 = 0;
    for x in 0..capped(rows.len()) {
        word = with_node(word, rows[x] & nodes != 0, x);
    }
    word
}

// The nodes, and those with a forward edge to one of them.
pub fn grow(rows: &[u64], nodes: u64) -> u64
    ensures { result ≡ grown rows.now nodes }
{
    nodes | nodes_into(rows, nodes)
}
