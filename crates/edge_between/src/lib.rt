// The edges of a table of places that go from some nodes to others, counted: what a picture and an explanation tell of two nodes or of a program.
#![tactic(auto)]

ghost use Rattle.std.specs.Prelude.{◌≡◌, ◌≤◌};
ghost use Rattle.place_row.specs.RowTable.{row_count};
ghost use Rattle.edge_count.specs.Slots.{table_edges};
ghost use Rattle.edge_between.specs.Between.{counts_between};
ghost use Rattle.edge_between.specs.Rows.{nothing_counted, pair_entering, row_entering, row_between, Few};

use edge_count::{Counts, pair_counts};
use edge_test::{back_stands, forward_stands};
use kind_pair::pair_code;
use place_fetch::{row_at, row_count};
use place_row::Row;

// No edges.
fn no_edges() -> Counts
    ensures { result ≡ nothing_counted }
{
    Counts { edges: 0, back: 0 }
}

// The edges between two rows, if the second is of a node in the range.
fn count_pair(p: Row, q: Row, from: u64, to: u64) -> Counts
    ensures { result ≡ pair_entering from to p q }
{
    if q.node < from {
        return no_edges();
    }
    if to <= q.node {
        return no_edges();
    }
    let code = pair_code(p.kind, q.kind);
    pair_counts(forward_stands(code, p, q), back_stands(code, p, q))
}

// The edges that leave a row and enter a node in the range.
fn count_entering(table: &[u64], p: Row, from: u64, to: u64) -> Counts
    ensures { Few 1024 (row_entering table.now p from to) result }
{
    let n = row_count(table);
    let mut counts = no_edges();
    for j in 0..n {
        let q = row_at(table, j);
        let c = count_pair(p, q, from, to);
        counts = counts.plus(c);
    }
    counts
}

// The edges that leave row i, if it is of a node in the first range, and enter a node in the second.
fn count_row(table: &[u64], i: usize, a: u64, b: u64, c: u64, d: u64) -> Counts
    ensures { Few 1024 (row_between table.now i a b c d) result }
{
    let p = row_at(table, i);
    if p.node < a {
        return no_edges();
    }
    if b <= p.node {
        return no_edges();
    }
    count_entering(table, p, c, d)
}

// How many edges leave a node from a on and below b and enter one from c on and below d, and how many of them are back edges.
pub fn count_between(table: &[u64], a: u64, b: u64, c: u64, d: u64) -> Counts
    ensures { result ≡ counts_between a b c d (table_edges table.now) }
{
    let n = row_count(table);
    let mut counts = no_edges();
    for i in 0..n {
        let t = count_row(table, i, a, b, c, d);
        counts = counts.plus(t);
    }
    counts
}
