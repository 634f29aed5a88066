// The edges of the summary graph, counted row by row in a table of places: eight words to a row. Which letters hold between two rows is told by the
// codes of their kinds (Req 04).
#![tactic(auto)]

ghost use Rattle.std.specs.Prelude.{◌≡◌, leb, length};
ghost use Rattle.edge_count.specs.Slots.{table_edges, table_counts, row_counts, pair_counts, counts_plus};

use edge_test::{back_stands, forward_stands};
use kind_table::{code_to, codes_from};
use place_fetch::{row_at, row_count};

// How many edges there are, and how many of them are back edges.
#[derive(Clone, Copy, Debug, PartialEq, Eq)]
pub struct Counts {
    pub edges: usize,
    pub back: usize,
}

impl Counts {
    // These counts and more of them. They are told modulo 2^64, for any counts; those of a table are far below.
    pub fn plus(self, more: Counts) -> Counts
        ensures { result ≡ counts_plus self more }
    {
        Counts {
            edges: self.edges.wrapping_add(more.edges),
            back: self.back.wrapping_add(more.back),
        }
    }
}

// How many edges stand between two rows, and how many of them are back edges, by whether a forward and a back edge does: two
// flags, as promised, since of an edge no more is told here than that it stands.
pub fn pair_counts(forward: bool, back: bool) -> Counts
    ensures { result ≡ pair_counts forward back }
{
    if forward {
        if back {
            return Counts { edges: 2, back: 1 };
        }
        return Counts { edges: 1, back: 0 };
    }
    if back {
        return Counts { edges: 1, back: 1 };
    }
    Counts { edges: 0, back: 0 }
}

// How many edges leave row i, and how many of them are back edges: what costs least to know of a row's edges, since none of them is made.
pub fn count_row(table: &[u64], i: usize) -> Counts
    ensures { result ≡ row_counts table.now i }
{
    let n = row_count(table);
    let p = row_at(table, i);
    let codes = codes_from(p.kind);
    let mut counts = Counts { edges: 0, back: 0 };
    for j in 0..n {
        let q = row_at(table, j);
        let code = code_to(&codes, q.kind);
        let c = pair_counts(forward_stands(code, p, q), back_stands(code, p, q));
        counts = counts.plus(c);
    }
    counts
}

// How many edges a table has, and how many of them are back edges. Rows past the 512th are not looked at: no workload has more.
pub fn count_edges(table: &[u64]) -> Counts
    ensures { result ≡ table_counts table.now }
{
    let n = row_count(table);
    let mut counts = Counts { edges: 0, back: 0 };
    for i in 0..n {
        let more = count_row(table, i);
        counts = counts.plus(more);
    }
    counts
}

// Whether the edges of a table fit into an area with this much room. Where there is room for two edges to each pair of rows, they are not counted.
pub fn fits_in(table: &[u64], room: usize) -> bool
    ensures { result ≡ leb (length (table_edges table.now)) room }
{
    let n = row_count(table);
    if 2 * n * n <= room {
        return true;
    }
    let c = count_edges(table);
    c.edges <= room
}
