// Which of 64 nodes reach which along forward edges, from a table that holds a word for each pair of nodes (edge_word). A set of nodes is a word. A
// table need only be as long as the rows of its nodes, and a list of rows too: what is past the end counts as 0.
#![tactic(auto)]

ghost use Rattle.std.specs.Prelude.{cond, ◌≡◌, ℕ, ◌+◌, ◌*◌, ◌≤◌, ◌<◌, ltb, length, replicate};
ghost use Rattle.walk_nodes.specs.Nodes.{word_below};
ghost use Rattle.walk_reach.specs.Layers.{Blank, FilledBy, joined_bit, joined_row, rows_filled, layer};

use edge_word::NODES;
use walk_nodes::{grow, node_word, rows_in, with_node};

// Writes into each of the first n words what the function tells of its place, or into all where there are no more than n. The other words stay as
// they were.
pub fn fill_words<F: Fn(usize) -> u64>(words: &mut [u64], n: usize, word_of: F)
    requires { (i : ℕ) → i < n → i < length words.old → F.pre word_of i }
    ensures { FilledBy (F.post word_of) n words.old words.new }
{
    for i in 0..n.min(words.len()) {
        words[i] = word_of(i);
    }
}

// A word for each node: for the first n of them as the function tells, and 0 for the others. There are 64, whatever n is.
pub fn rows_by<F: Fn(usize) -> u64>(n: usize, word_of: F) -> [u64; NODES]
    requires { (i : ℕ) → i < n → i < 64 → F.pre word_of i }
    ensures { FilledBy (F.post word_of) n (replicate 64 0) result }
{
    let mut rows = [0u64; NODES];
    fill_words(&mut rows, n, word_of);
    rows
}

// Words from one to another as one word: it is 0 where they all are.
fn words_joined(table: &[u64], from: usize, to: usize) -> u64
    requires { (from ≤ to) × (to ≤ length table.now) }
    ensures { result ≡ 0 → Blank table.now from to }
{
    let mut all: u64 = 0;
    for i in from..to {
        all |= table[i];
    }
    all
}

// The nodes below `end` to which a forward edge goes from u, as a word.
fn row_below(forwards: &[u64], u: usize, end: usize) -> u64
    requires { (u < 64) × (end ≤ 64) × (u * 64 + end ≤ length forwards.now) }
    ensures { result ≡ word_below (joined_bit forwards.now u) end }
{
    let mut word: u64 = 0;
    for v in 0..end {
        word = with_node(word, forwards[u * NODES + v] != 0, v);
    }
    word
}

// The nodes to which a forward edge goes from u, as a word, where the table has the whole row. Edges go most often to the first n nodes alone: the
// words past them are then looked at together.
fn whole_row(forwards: &[u64], u: usize, n: usize) -> u64
    requires { (u < 64) × (n ≤ 64) × (u * 64 + 64 ≤ length forwards.now) }
    ensures { result ≡ joined_row forwards.now u }
{
    let b = u * NODES;
    if words_joined(forwards, b + n, b + NODES) == 0 {
        return row_below(forwards, u, n);
    }
    row_below(forwards, u, NODES)
}

// The same however long the table is: it may have a part of the row or none.
fn joined_row(forwards: &[u64], u: usize, n: usize) -> u64
    requires { (u < 64) × (n ≤ 64) }
    ensures { result ≡ joined_row forwards.now u }
{
    let b = u * NODES;
    let m = forwards.len();
    if b + NODES <= m {
        return whole_row(forwards, u, n);
    }
    if m <= b {
        return 0;
    }
    row_below(forwards, u, m - b)
}

// The nodes to which a forward edge goes from u, as a word; none where u is no node.
pub fn node_row(forwards: &[u64], u: usize) -> u64
    ensures { result ≡ cond (ltb u 64) (joined_row forwards.now u) 0 }
{
    if u < NODES {
        let n = rows_in(forwards);
        return joined_row(forwards, u, n);
    }
    0
}

// For each node that has a row the nodes to which a forward edge goes from it; the other words are 0.
pub fn joined_rows(forwards: &[u64]) -> [u64; NODES]
    ensures { result ≡ rows_filled forwards.now }
{
    let n = rows_in(forwards);
    rows_by(n, |u| joined_row(forwards, u, n))
}

// The nodes from which u is reached along forward edges in at most d steps; none where u is no node. Once a step adds nothing, none does.
pub fn layer_at(rows: &[u64], u: usize, d: usize) -> u64
    ensures { result ≡ layer rows.now u d }
{
    let mut nodes = node_word(u);
    for _k in 0..d {
        let next = grow(rows, nodes);
        if next == nodes {
            return nodes;
        }
        nodes = next;
    }
    nodes
}
