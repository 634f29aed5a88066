// The edges of a table, one after the other, put into the caller's list.
#![tactic(auto)]

ghost use Rattle.std.specs.Prelude.{◌≡◌, true};
ghost use Rattle.kind_table.specs.Codes.{code_of};
ghost use Rattle.place_row.specs.RowTable.{row_at};
ghost use Rattle.edge_count.specs.Slots.{table_edges};
ghost use Rattle.edge_put.specs.Cursors.{row_in, row_start, past_all, first_row, next_row, at_pair, nothing_at, edge_by, back_shared, back_is};
ghost use Rattle.edge_put.specs.Cursors.{row_after, Inside, Begun, Standing, BackNext, Open, Paired, Stepped, Passed};
ghost use Rattle.edge_put.specs.Put.{PutAs};

use edge_count::fits_in;
use edge_find::shared_by;
use edge_kinds::{LOOSE, kind_has, kind_number, kind_of};
use edge_record::Edge;
use edge_test::{back_letter, forward_letter};
use kind_pair::pair_code;
use place_fetch::{row_count, row_of};
use place_link::{FIRST, NEXT, NEXTS, rows_linked};
use place_row::{KIND, ROW_WORDS, Row};
use refusal::Fault;

// The words of a row, the kind by its number: all of one size, so that keeping them costs no copying of what lies between. It stands beside Row,
// which place_row promises and whose kind is an enum.
#[derive(Clone, Copy)]
struct Words {
    node: u64,
    place: u64,
    kind: u64,
    relation: u64,
    reads: u64,
    writes: u64,
    tests: u64,
    keys: u64,
}

// A place in the order of a table's edges: row i of n with its words, and the rows from j on are still to be looked at as those that an edge from
// it enters. `back` is the letter of the back edge to row j, where one comes next. Where the rows are linked those of other chains are
// passed over. Letters and flows are bytes here, as in Edge, which callers in C own.
#[derive(Clone, Copy)]
struct Cursor {
    n: usize,
    i: usize,
    j: usize,
    back: Option<u8>,
    linked: bool,
    w: Words,
}

// The edge that comes next and the place after it; where there is no edge, a place before which none comes.
#[derive(Clone, Copy)]
struct Step {
    edge: Option<Edge>,
    cursor: Cursor,
}

// Row number j of a table, which is whole. The same stands in walk_pick: a public function would have to ask of its callers that the row is whole.
fn row_whole(table: &[u64], j: usize) -> Row
    requires { Inside table.now j }
    ensures { result ≡ row_at table.now j }
{
    let (rows, _) = table.as_chunks::<ROW_WORDS>();
    row_of(&rows[j])
}

// The row that words tell.
fn row_in(w: Words) -> Row
    ensures { result ≡ row_in w }
{
    let k = kind_of(w.kind);
    Row {
        node: w.node,
        place: w.place,
        kind: k,
        relation: w.relation,
        reads: w.reads,
        writes: w.writes,
        tests: w.tests,
        keys: w.keys,
    }
}

// Row i left, of which row j may be entered first.
fn row_start(table: &[u64], n: usize, linked: bool, i: usize, j: usize) -> Cursor
    requires { Inside table.now i }
    ensures { result ≡ row_start table.now n linked i j }
{
    let p = row_whole(table, i);
    let k = p.kind;
    let kind = kind_number(k);
    let w = Words {
        node: p.node,
        place: p.place,
        kind,
        relation: p.relation,
        reads: p.reads,
        writes: p.writes,
        tests: p.tests,
        keys: p.keys,
    };
    Cursor {
        n,
        i,
        j,
        back: None,
        linked,
        w,
    }
}

// All rows left: the words are those of no row, so that none is fetched.
fn past_all(n: usize) -> Cursor
    ensures { result ≡ past_all n }
{
    let w = Words {
        node: 0,
        place: 0,
        kind: 0,
        relation: 0,
        reads: 0,
        writes: 0,
        tests: 0,
        keys: 0,
    };
    Cursor {
        n,
        i: n,
        j: 0,
        back: None,
        linked: false,
        w,
    }
}

// The first row to be looked at for the edges that leave row i.
fn row_first(table: &[u64], linked: bool, i: usize) -> usize
    requires { Inside table.now i }
    ensures { result ≡ first_row table.now linked i }
{
    if linked {
        return (table[i * ROW_WORDS + KIND] / FIRST) as usize;
    }
    0
}

// The row to be looked at after row j.
fn row_next(table: &[u64], linked: bool, j: usize) -> usize
    requires { Inside table.now j }
    ensures { result ≡ next_row table.now linked j }
{
    if linked {
        return (table[j * ROW_WORDS + KIND] / NEXT % NEXTS) as usize;
    }
    j + 1
}

// The same row left, another row that may be entered.
fn at_pair(c: Cursor, j: usize, back: Option<u8>) -> Cursor
    ensures { result ≡ at_pair c j back }
{
    let mut next = c;
    next.j = j;
    next.back = back;
    next
}

// No edge so far.
fn nothing_at(cursor: Cursor) -> Step
    ensures { result ≡ nothing_at cursor }
{
    Step { edge: None, cursor }
}

// The edge between two rows with this flow and letter, whose sets share m.
fn edge_by(flow: u8, letter: u8, m: u64, p: Row, q: Row) -> Edge
    ensures { result ≡ edge_by flow letter m p q }
{
    Edge {
        node: p.node,
        leaves: p.place,
        into: q.node,
        enters: q.place,
        sharing: u64::count_ones(m),
        lowest: u64::trailing_zeros(m),
        flow,
        letter,
    }
}

// What the two sets of a back edge's letter share: a back edge has no other letter than D or E.
fn back_shared(letter: u8, p: Row, q: Row) -> u64
    ensures { result ≡ back_shared letter p q }
{
    if letter == b'D' {
        return p.reads & q.writes;
    }
    p.tests & q.writes
}

// The back edge with this letter, which comes next.
fn back_step(table: &[u64], c: Cursor, letter: u8) -> Step
    requires { BackNext table.now c letter }
    ensures { Passed table.now c result }
{
    let w = c.w;
    let p = row_in(w);
    let j = c.j;
    let q = row_whole(table, j);
    let m = back_shared(letter, p, q);
    let edge = edge_by(b'b', letter, m, p, q);
    let cursor = at_pair(c, row_next(table, c.linked, j), None);
    Step {
        edge: Some(edge),
        cursor,
    }
}

// The letter of the back edge between two rows, if one stands; only a loose kind has back edges that leave it.
fn back_told(code: u32, p: Row, q: Row) -> Option<u8>
    requires { code ≡ code_of p.kind q.kind }
    ensures { result ≡ back_is p q }
{
    let k = p.kind;
    if kind_has(k, LOOSE) {
        return back_letter(code, p, q);
    }
    None
}

// The row to look at next: the same where a back edge comes next.
fn row_after(table: &[u64], linked: bool, j: usize, back: Option<u8>) -> usize
    requires { Inside table.now j }
    ensures { result ≡ row_after table.now linked j back }
{
    match back {
        Some(_) => j,
        None => row_next(table, linked, j),
    }
}

// The edge between two rows. Where no forward edge stands, no back edge does.
fn pair_step(table: &[u64], c: Cursor) -> Step
    requires { Paired table.now c }
    ensures { Stepped table.now c result }
{
    let w = c.w;
    let p = row_in(w);
    let j = c.j;
    let q = row_whole(table, j);
    let k = p.kind;
    let l = q.kind;
    let code = pair_code(k, l);
    let told = forward_letter(code, p, q);
    let Some(letter) = told else {
        return nothing_at(at_pair(c, row_next(table, c.linked, j), None));
    };
    let m = shared_by(letter, p, q);
    let edge = edge_by(b'f', letter, m, p, q);
    let back = back_told(code, p, q);
    let cursor = at_pair(c, row_after(table, c.linked, j, back), back);
    Step {
        edge: Some(edge),
        cursor,
    }
}

// The edge to the row to be looked at; past the last, the row after the one left is left next.
fn look_on(table: &[u64], c: Cursor) -> Step
    requires { Open table.now c }
    ensures { Stepped table.now c result }
{
    let n = c.n;
    if n <= c.j {
        let i = c.i + 1;
        if n <= i {
            return nothing_at(past_all(n));
        }
        let first = row_first(table, c.linked, i);
        return nothing_at(row_start(table, n, c.linked, i, first));
    }
    pair_step(table, c)
}

// The edge that comes next. It stays a loop: each step tells where the cursor goes on, by what the table says.
fn next_edge(table: &[u64], c: Cursor) -> Step
    requires { Standing table.now c }
    ensures { Passed table.now c result }
{
    if let Some(letter) = c.back {
        return back_step(table, c, letter);
    }
    let mut d = c;
    while d.i < d.n {
        let step = look_on(table, d);
        match step.edge {
            Some(_) => return step,
            None => d = step.cursor,
        }
    }
    nothing_at(d)
}

// The place before the first edge.
fn start_of(table: &[u64]) -> Cursor
    ensures { Begun table.now true result }
{
    let n = row_count(table);
    if 0 < n {
        return row_start(table, n, rows_linked(table), 0, 0);
    }
    past_all(n)
}

// Puts the edges of a table at the front of an area that has room for them, and answers how many they are; the rest of the area stays as it was, and
// so does all of an area that is too short. Rows past the 512th are not looked at: no workload has more. It stays a loop: each edge is found from
// where the one before it ends, and how many there are is known only then.
pub fn put_edges<'b, 'a>(table: &'b [u64], out: &'a mut [Edge]) -> Result<usize, Fault>
    ensures { PutAs (table_edges table.now) out.old result out.new }
{
    if !fits_in(table, out.len()) {
        return Err(Fault::Area);
    }
    let mut c = start_of(table);
    let mut k: usize = 0;
    loop {
        let step = next_edge(table, c);
        let Some(edge) = step.edge else {
            break;
        };
        out[k] = edge;
        c = step.cursor;
        k += 1;
    }
    Ok(k)
}
