// How soon a way leads back to a node from one of the nodes to which dangerous pairs lead from it. `rows` has for each node the nodes to which a
// forward edge goes from it (walk_reach), `leads` those to which a dangerous pair of edges leads from it (walk_lead). A set of nodes is a word.
#![tactic(auto)]

ghost use Rattle.std.specs.Prelude.{◌≡◌, ◌≤◌, min};
ghost use Rattle.walk_return.specs.Returns.{first_meeting, shortest_return};

use edge_word::NODES;
use walk_nodes::{capped, grow, node_word};

// In how many steps below `most` u is reached from one of the nodes, or `most` where it is not. The layers are worked out one by one, and none where
// there is no node or once nothing is added any more.
fn return_from(rows: &[u64], nodes: u64, u: usize, most: usize) -> usize
    requires { most ≤ 64 }
    ensures { (result ≡ min most (first_meeting rows.now nodes u)) × (result ≤ 64) }
{
    if nodes == 0 {
        return most;
    }
    let mut layer = node_word(u);
    for d in 0..most {
        if nodes & layer != 0 {
            return d;
        }
        let next = grow(rows, layer);
        if next == layer {
            return most;
        }
        layer = next;
    }
    most
}

// The fewest steps of a way back to a node from one of the nodes to which pairs lead from it, or 64 where no pair has a way back: a number and not
// None, since it is the least so far that bounds each search.
pub fn shortest_return(rows: &[u64], leads: &[u64]) -> usize
    ensures { result ≡ shortest_return rows.now leads.now }
{
    let mut least = NODES;
    for u in 0..capped(leads.len()) {
        least = return_from(rows, leads[u], u, least);
    }
    least
}
