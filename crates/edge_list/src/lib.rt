// The edges of any workload value: counted, told one by one, or put into the caller's list.
#![tactic(auto)]

ghost use Rattle.std.specs.Prelude.{◌≡◌};
ghost use Rattle.edge_list.specs.EdgesSettled.{CountsSettled, EdgeSettled, PutSettled};
ghost use Rattle.edge_list.specs.Prepared.{TabledFor};

use edge_count::count_edges;
use edge_number::edge_of_number;
use edge_put::put_edges;
use edge_record::Edge;
use place_row::{ROW_WORDS, TABLE_WORDS};
use place_table::fill_rows;
use refusal::Fault;
use spec_text::Workload;

// How many edges there are, and how many of them are back edges.
#[derive(Clone, Copy, Debug, PartialEq, Eq)]
pub struct EdgeCounts {
    pub edges: u64,
    pub back: u64,
}

// The table of a workload, into a lent one: how many of its words are those of rows.
fn tabled(w: Workload, table: &mut [u64; TABLE_WORDS]) -> Result<usize, Fault>
    ensures { TabledFor w result table.new }
{
    let rows = fill_rows(w, table)?;
    Ok(rows.places as usize * ROW_WORDS)
}

// How many edges a workload has.
pub fn edge_counts(w: Workload) -> Result<EdgeCounts, Fault>
    ensures { CountsSettled w result }
{
    let mut table = [0u64; TABLE_WORDS];
    let n = tabled(w, &mut table)?;
    let c = count_edges(&table[..n]);
    Ok(EdgeCounts {
        edges: c.edges as u64,
        back: c.back as u64,
    })
}

// Edge number k of a workload, or that there is none.
pub fn edge_number(w: Workload, k: u64) -> Result<Option<Edge>, Fault>
    ensures { EdgeSettled w k result }
{
    let mut table = [0u64; TABLE_WORDS];
    let words = tabled(w, &mut table)?;
    Ok(edge_of_number(&table[..words], k as usize))
}

// Puts the edges of a workload at the front of an area, and answers how many they are; the rest of the area stays as it was. A refusal leaves all of
// it.
pub fn put_workload_edges<'a>(w: Workload, out: &'a mut [Edge]) -> Result<usize, Fault>
    ensures { PutSettled w out.old result out.new }
{
    let mut table = [0u64; TABLE_WORDS];
    let n = tabled(w, &mut table)?;
    put_edges(&table[..n], out)
}
