// The first edge from some slot on in a table of places: each pair of rows has two slots, the forward edge's and the back edge's. Which letters hold
// between two rows is told by the code of their kinds (Req 04).
#![tactic(auto)]

ghost use Rattle.std.specs.Prelude.{◌≡◌, ◌<◌};
ghost use Rattle.edge_find.specs.Search.{shared_by, nothing_to, step_in, step_at, is_there, edge_from, Looked};

use edge_record::Edge;
use edge_test::{back_letter, forward_letter};
use kind_pair::pair_code;
use place_fetch::{row_at, row_count};
use place_row::{ROW_SLOTS, ROW_WORDS, Row, SLOTS};

// The first edge from some slot on, and its slot; where there is none, the number of slots.
#[derive(Clone, Copy)]
pub struct EdgeStep {
    pub slot: usize,
    pub found: Option<Edge>,
}

// What the two sets of a letter share. The letter is a byte, as in Edge, which callers in C own; any byte is taken, and each but A to D stands for E.
pub fn shared_by(letter: u8, p: Row, q: Row) -> u64
    ensures { result ≡ shared_by letter p q }
{
    match letter {
        b'A' => p.writes & q.writes,
        b'B' => p.writes & q.reads,
        b'C' => p.writes & q.tests,
        b'D' => p.reads & q.writes,
        _ => p.tests & q.writes,
    }
}

// No edge so far: this slot is the next to look at.
fn nothing_to(slot: usize) -> EdgeStep
    ensures { result ≡ nothing_to slot }
{
    EdgeStep { slot, found: None }
}

// The edge between two rows with this flow and letter, in its slot; with no letter, the next slot.
fn step_with(slot: usize, flow: u8, letter: Option<u8>, p: Row, q: Row) -> EdgeStep
    requires { slot < 524288 }
    ensures { result ≡ step_in slot flow letter p q }
{
    let Some(letter) = letter else {
        return nothing_to(slot + 1);
    };
    let m = shared_by(letter, p, q);
    let edge = Edge {
        node: p.node,
        leaves: p.place,
        into: q.node,
        enters: q.place,
        sharing: u64::count_ones(m),
        lowest: u64::trailing_zeros(m),
        flow,
        letter,
    };
    EdgeStep {
        slot,
        found: Some(edge),
    }
}

// The edge in a slot of two rows; where none stands, the next slot. Even slots are those of forward edges.
fn pair_at(slot: usize, p: Row, q: Row) -> EdgeStep
    requires { slot < 524288 }
    ensures { result ≡ step_at slot p q }
{
    let code = pair_code(p.kind, q.kind);
    if slot % 2 == 0 {
        let letter = forward_letter(code, p, q);
        return step_with(slot, b'f', letter, p, q);
    }
    let letter = back_letter(code, p, q);
    step_with(slot, b'b', letter, p, q)
}

// The edge in a slot; where none stands, the next slot to look at. Slots past the last row are passed over at once, and so are both slots
// of a pair of rows of two relations. That both rows are whole is tested first, so that no row is looked up word by word.
fn look_at(table: &[u64], slot: usize) -> EdgeStep
    requires { slot < 524288 }
    ensures { Looked table.now slot result }
{
    let rows = table.len() / ROW_WORDS;
    let i = slot / ROW_SLOTS;
    if rows <= i {
        return nothing_to(SLOTS);
    }
    let j = slot % ROW_SLOTS / 2;
    if rows <= j {
        return nothing_to(i * ROW_SLOTS + ROW_SLOTS);
    }
    let p = row_at(table, i);
    let q = row_at(table, j);
    if p.relation != q.relation {
        return nothing_to(slot / 2 * 2 + 2);
    }
    pair_at(slot, p, q)
}

// Whether a step has found an edge.
fn is_found(step: EdgeStep) -> bool
    ensures { result ≡ is_there step.found }
{
    step.found.is_some()
}

// The first edge from a slot on: from 0, and from after each edge's slot, it gives all edges of a table in order. It stays a loop: a slot
// without an edge tells the next one to look at, which may stand many slots on.
pub fn edge_from(table: &[u64], from: usize) -> EdgeStep
    ensures { result ≡ edge_from table.now from }
{
    let mut x = from;
    while x < SLOTS {
        let step = look_at(table, x);
        if is_found(step) {
            return step;
        }
        x = step.slot;
    }
    let n = row_count(table);
    nothing_to(n * ROW_SLOTS)
}
