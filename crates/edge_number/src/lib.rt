// Edges asked for by their numbers.
#![tactic(auto)]

ghost use Rattle.std.specs.Prelude.{◌≡◌, ◌+◌};
ghost use Rattle.std.proofs.Math.ListN.{get_elem?};
ghost use Rattle.edge_record.specs.Coded.{found_as};
ghost use Rattle.edge_count.specs.Slots.{table_edges, edges_below};

use edge_count::count_row;
use edge_find::edge_from;
use edge_record::Edge;
use place_fetch::row_count;
use place_row::ROW_SLOTS;

// Edge number m of those from a slot on: each edge is found from after the slot of the one before, and where one is missing there is no later one.
fn numbered_from(table: &[u64], slot: usize, m: usize) -> Option<Edge>
    ensures { result ≡ found_as (get_elem? (table_edges table.now) (edges_below table.now slot + m)) }
{
    let mut from = slot;
    for i in 0..m {
        let step = edge_from(table, from);
        step.found?;
        from = step.slot + 1;
    }
    edge_from(table, from).found
}

// Edge number k of a table: the edges of a row that has only lower numbers are counted, which costs less than to find them; those of the row that has
// edge k are found one after the other. Rows past the 512th are not looked at: no workload has more.
pub fn edge_of_number(table: &[u64], k: usize) -> Option<Edge>
    ensures { result ≡ found_as (get_elem? (table_edges table.now) k) }
{
    let n = row_count(table);
    let mut left = k;
    for i in 0..n {
        let row = count_row(table, i);
        if left < row.edges {
            return numbered_from(table, i * ROW_SLOTS, left);
        }
        left -= row.edges;
    }
    None
}
