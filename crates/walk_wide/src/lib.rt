// How far the last of so many forward steps to a node can open, among 64 nodes. `rows` has for each node the nodes to which a forward edge goes from
// it (walk_reach), as a word.
#![tactic(auto)]

ghost use Rattle.std.specs.Prelude.{◌≡◌, ◌+◌, ◌*◌, ◌≤◌, ◌<◌, min, length};
ghost use Rattle.walk_nodes.specs.Nodes.{rows_in};
ghost use Rattle.walk_reach.specs.Layers.{Written};
ghost use Rattle.walk_wide.specs.Wide.{greatest_in, width_into, widest_at, widest_from, Above};

use edge_opens::opens_below;
use edge_word::{NODES, PAIRS};
use walk_nodes::{capped, rows_in};
use word_list::{clear, has_bit, word_at};

// The greatest of the 64 words from a place on that stand at one of the nodes. Past the last of the nodes no word is looked at.
fn greatest_in(table: &[u64], from: usize, nodes: u64) -> u64
    requires { from + 64 ≤ length table.now }
    ensures { result ≡ greatest_in table.now from nodes }
{
    let mut best: u64 = 0;
    for y in 0..NODES {
        if nodes >> y == 0 {
            return best;
        }
        if has_bit(nodes, y as u64) {
            best = best.max(table[from + y]);
        }
    }
    best
}

// How far the forward edge from x to s opens; 0 where s is no node, and so no Option: the greatest of them is taken.
fn width_into(forwards: &[u64], s: usize, x: usize) -> u64
    requires { x < 64 }
    ensures { result ≡ width_into forwards.now s x }
{
    if s < NODES {
        return opens_below(word_at(forwards, x * NODES + s));
    }
    0
}

// Word i of the table, from the words before it.
fn widest_from(forwards: &[u64], rows: &[u64], s: usize, table: &[u64], i: usize) -> u64
    requires { (i < 4096) × (4096 ≤ length table.now) }
    ensures { result ≡ widest_from forwards.now rows.now s table.now i }
{
    if i < NODES {
        return width_into(forwards, s, i);
    }
    let nodes = word_at(rows, i % NODES);
    greatest_in(table, (i / NODES - 1) * NODES, nodes)
}

// How many nodes have a row in the table of edges or in that of the rows.
fn nodes_there(forwards: &[u64], rows: &[u64]) -> usize
    ensures { (rows_in forwards.now ≤ result) × (min (length rows.now) 64 ≤ result) × (result ≤ 64) }
{
    rows_in(forwards).max(capped(rows.len()))
}

// The 64 words of round r, from those before it: 0 for a node past those that are there.
fn widest_row(forwards: &[u64], rows: &[u64], s: usize, n: usize, r: usize, table: &mut [u64])
    requires { (rows_in forwards.now ≤ n) × (min (length rows.now) 64 ≤ n) × (n ≤ 64) × (r < 64) × (4096 ≤ length table.old)
        × Above forwards.now rows.now s r table.old }
    ensures { Written (widest_at forwards.now rows.now s) (r * 64) (r * 64 + 64) table.old table.new }
{
    let b = r * NODES;
    for x in 0..n {
        table[b + x] = widest_from(forwards, rows, s, table, b + x);
    }
    clear(table, b + n, b + NODES);
}

// The words of so many rounds, one after the other.
fn widest_rows(forwards: &[u64], rows: &[u64], s: usize, rounds: usize, table: &mut [u64])
    requires { (rounds ≤ 64) × (4096 ≤ length table.old) }
    ensures { Written (widest_at forwards.now rows.now s) 0 (rounds * 64) table.old table.new }
{
    let n = nodes_there(forwards, rows);
    for r in 0..rounds {
        widest_row(forwards, rows, s, n, r, table);
    }
}

// Writes at r * 64 + x, for r below `rounds` and below 64, how far the last of exactly r + 1 forward steps from x to s can open. The other words stay
// as they were.
pub fn widest_table(
    forwards: &[u64],
    rows: &[u64],
    s: usize,
    rounds: usize,
    table: &mut [u64; PAIRS],
)
    ensures { Written (widest_at forwards.now rows.now s) 0 (min rounds 64 * 64) table.old table.new }
{
    let last = capped(rounds);
    widest_rows(forwards, rows, s, last, table)
}
