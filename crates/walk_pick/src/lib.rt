// One pass over a table of places: its edges counted, and for each pair of nodes the edge that stands for all.
#![tactic(auto)]

ghost use Rattle.std.specs.Prelude.{◌≡◌, true, cond, not, eqb, ◌+◌, ◌*◌, ◌%◌, ◌≤◌, ◌<◌, min, length, get_or};
ghost use Rattle.edge_word.specs.Coding.{forward_word, back_word};
ghost use Rattle.lent_words.specs.Lent.{Lent};
ghost use Rattle.word_rows.specs.Put.{row_put};
ghost use Rattle.spec_base.specs.Basic.{meets};
ghost use Rattle.edge_pair.specs.PairWords.{forward_words, back_words, never_back};
ghost use Rattle.walk_pick.specs.Picks.{PickedAs};
ghost use Rattle.walk_pick.specs.PickSteps.{kept_at, kept_between, has_entries, RowKept, RowAdded, RowsAdded, Tables, WholeRow};
ghost use Rattle.walk_pick.specs.Runs.{goes_on, along_of, work_words, entered_at, last_mark, Worked, NextKnown};
ghost use Rattle.walk_pick.specs.Runs.{RunAdded, RowKnown, TableKnown};
ghost use Rattle.walk_pick.specs.Leavings.{OnChain, Related, StretchOf, RanFrom, ChainAt};
ghost use Rattle.place_row.specs.RowTable.{row_at, row_count};

mod leaving;

use edge_count::Counts;
use edge_kinds::{LOOSE, kind_has};
use edge_pair::{Entered, Left, entered_words, left_words};
use edge_word::{NODES, PLACES, back_word, forward_word};
use leaving::Leaving;
use place_fetch::{row_count, row_of};
use place_next::chain_rows;
use place_row::{ROW_WORDS, ROWS, Row, TABLE_WORDS};
use word_list::clear;
use word_rows::put_row;

// What a run of rows gives: the next row on its chain, the marks of the last edges that enter it, 0 where there is none, and how many forward
// and back edges there are.
#[derive(Clone, Copy)]
struct Run {
    next: usize,
    forward: u64,
    back: u64,
    edges: usize,
    turned: usize,
}

// How far the pass along a run has come: where the words of the next row stand, where those of the last one that an edge enters do, and how many
// edges there are.
#[derive(Clone, Copy)]
struct Stretch {
    at: usize,
    last: usize,
    edges: usize,
}

// Words of rows stand below this; past it stands where a chain goes on after a run.
const LAST: usize = TABLE_WORDS;

const END: u64 = TABLE_WORDS as u64;

// Whether tables for so many nodes have room for a row's edges: its node is below the limit and its place below 1024.
#[tactic(auto, unfolding(crate::specs::PickSteps::has_entries))]
fn has_entries(p: Row, limit: usize) -> bool
    ensures { result ≡ has_entries limit p }
{
    p.node < limit as u64 && p.place < PLACES
}

// Keeps at x the greater of the word that stands there and the word given.
#[tactic(auto, unfolding(crate::specs::PickSteps::kept_at))]
fn keep_word(words: &mut [u64], x: usize, word: u64)
    requires { x < length words.old }
    ensures { words.new ≡ kept_at words.old x word }
{
    if words[x] < word {
        words[x] = word;
    }
}

// Keeps a word for the nodes of two rows, where the table has room.
fn keep_between(words: &mut [u64], limit: usize, p: Row, q: Row, word: u64)
    requires { Tables limit words.old }
    ensures { words.new ≡ kept_between limit p q words.old word }
{
    if has_entries(p, limit) {
        if has_entries(q, NODES) {
            let x = (p.node * NODES as u64 + q.node) as usize;
            keep_word(words, x, word);
        }
    }
}

// Row number j, which is whole. The same stands in edge_put: a public function would have to ask of its callers that the row is whole.
fn whole_row(table: &[u64], j: usize) -> Row
    requires { WholeRow table.now j }
    ensures { result ≡ row_at table.now j }
{
    let (rows, _) = table.as_chunks::<ROW_WORDS>();
    row_of(&rows[j])
}

// Whether a row goes on a run of the row before it on its chain.
#[tactic(auto, unfolding(crate::specs::Runs::goes_on))]
fn goes_on(p: Row, q: Row) -> bool
    ensures { result ≡ goes_on p q }
{
    p.node == q.node && p.relation == q.relation && p.place < q.place && q.place < PLACES
}

// Where the words of row k stand, the next on the chain of row j: past all words where it does not go on its run.
fn along_of(table: &[u64], n: usize, j: usize, k: usize) -> u64
    requires { (n ≡ row_count table.now) × (j < n) × (k ≤ n) }
    ensures { result ≡ along_of table.now n j k }
{
    let a = (k * ROW_WORDS) as u64;
    if n <= k {
        return a + END;
    }
    let p = whole_row(table, j);
    let q = whole_row(table, k);
    if goes_on(p, q) {
        return a;
    }
    a + END
}

// One where a run goes on with the words that stand right after those here.
fn straight_of(along: u64, at: usize) -> u64
    requires { at ≤ 4096 }
    ensures { result ≡ cond (eqb along (at + 8)) 1 0 }
{
    u64::from(along == (at + ROW_WORDS) as u64)
}

// The words of row j, whose next on its chain is row k.
fn put_work(table: &[u64], n: usize, j: usize, k: usize, work: &mut [u64])
    requires { (n ≡ row_count table.now) × (j < n) × (k ≤ n) }
    ensures { work.new ≡ row_put work.old (j * 8) (work_words table.now n j k) }
{
    let along = along_of(table, n, j, k);
    let q = whole_row(table, j);
    let e = entered_words(q);
    let at = j * ROW_WORDS;
    let straight = straight_of(along, at);
    put_row(
        work,
        at,
        along,
        PLACES + q.place % PLACES,
        e.bit,
        e.writes,
        e.looks,
        e.far,
        0,
        straight,
    );
}

// The words of all rows.
fn fill_work(table: &[u64], n: usize, next: &[u64], work: &mut [u64])
    requires { NextKnown table.now n next.now work.old }
    ensures { Worked table.now n n work.new }
{
    for j in 0..n {
        let k = next[j] as usize;
        put_work(table, n, j, k, work);
    }
}

// Where the words of a row stand that an edge enters, else where those of the one before do. A function, and so is the next one: the proofs of three
// loops name what it promises.
fn last_if(stands: bool, at: usize, before: usize) -> usize
    ensures { result ≡ cond stands at before }
{
    if stands { at } else { before }
}

// One where an edge stands.
fn one_if(stands: bool) -> usize
    ensures { (result ≡ cond stands 1 0) × (result ≤ 1) }
{
    usize::from(stands)
}

// Whether a forward edge stands between rows of one relation with these words.
#[tactic(auto, unfolding(edge_pair::specs::PairWords::forward_words))]
fn forward_meets(l: Left, q: Entered) -> bool
    ensures { result ≡ forward_words l q }
{
    l.sure & q.bit | l.writes & q.writes | l.updates & q.looks != 0
}

// Whether no back edge leaves a row with these words, whatever it enters.
#[tactic(auto, unfolding(edge_pair::specs::PairWords::never_back))]
fn never_back(l: Left) -> bool
    ensures { result ≡ never_back l }
{
    l.phantom | l.phantoms | l.select | l.selected == 0
}

// A word where two do not meet, else 0.
fn apart(x: u64, y: u64, word: u64) -> u64
    ensures { result ≡ cond (meets x y) 0 word }
{
    if x & y != 0 { 0 } else { word }
}

// Whether a back edge stands between rows of one relation with these words: E holds, or D for a select that no key shields.
#[tactic(auto, unfolding(edge_pair::specs::PairWords::back_words))]
fn back_meets(l: Left, q: Entered) -> bool
    ensures { result ≡ back_words l q }
{
    let bare = apart(l.keys, q.far, l.select & q.bit | l.selected & q.writes);
    l.phantom & q.bit | l.phantoms & q.writes | bare != 0
}

// The words of a row as one that is entered, from the words to work in.
#[tactic(auto, unfolding(crate::specs::Runs::entered_at))]
fn entered_at(work: &[u64], at: usize) -> Entered
    requires { at + 8 ≤ length work.now }
    ensures { result ≡ entered_at work.now at }
{
    Entered {
        bit: work[at + 2],
        writes: work[at + 3],
        looks: work[at + 4],
        far: work[at + 5],
    }
}

// The mark of a row, and where its run goes on.
fn mark_at(work: &[u64], at: usize) -> u64
    requires { at + 8 ≤ length work.now }
    ensures { result ≡ get_or work.now (at + 1) 0 }
{
    work[at + 1]
}

fn along_at(work: &[u64], at: usize) -> usize
    requires { at + 8 ≤ length work.now }
    ensures { result ≡ get_or work.now at 0 }
{
    work[at] as usize
}

fn straight_at(work: &[u64], at: usize) -> u64
    requires { at + 8 ≤ length work.now }
    ensures { result ≡ get_or work.now (at + 7) 0 }
{
    work[at + 7]
}

// The mark of the last row that so many edges enter: 0 where there are none. It is fetched once a run, and not where each edge stands: so the mark is
// no branch in the pass along the run, which keeps only where the words of the last row stand.
#[tactic(auto, unfolding(crate::specs::Runs::last_mark))]
fn last_mark(work: &[u64], last: usize, edges: usize) -> u64
    requires { last + 8 ≤ length work.now }
    ensures { result ≡ last_mark work.now last edges }
{
    if edges == 0 {
        return 0;
    }
    mark_at(work, last)
}

// The edges from a row to the rows of a run whose words stand right one after the other, but the last of these. The next place is added up and not
// fetched, so that no row waits for the one before it. It stays a loop: how far it goes is told by the words that it comes to.
fn straight_forward(s: &Leaving, j: usize, from: Stretch) -> Stretch
    requires { Related s.now j × (s.now.never ≡ true) × StretchOf s.now j from }
    ensures { StretchOf s.now j result × (from.at ≤ result.at) }
{
    let mut at = from.at;
    let mut last = from.last;
    let mut edges = from.edges;
    let mut straight = straight_at(s.work, at);
    while 0 < straight {
        let q = entered_at(s.work, at);
        let f = forward_meets(s.words, q);
        last = last_if(f, at, last);
        edges += one_if(f);
        at += ROW_WORDS;
        straight = straight_at(s.work, at);
    }
    Stretch { at, last, edges }
}

// The edges from a row to the rows of a run, where no back edge leaves it. No test hangs on what stands, so that nothing is guessed wrong. It stays a
// loop: the words of a row tell where those of the next one stand.
fn run_forward(s: &Leaving, j: usize) -> Run
    requires { Related s.now j × (s.now.never ≡ true) }
    ensures { RanFrom s.now j result }
{
    let mut at = j * ROW_WORDS;
    let mut last: usize = 0;
    let mut edges: usize = 0;
    while at < LAST {
        let far = straight_forward(s, j, Stretch { at, last, edges });
        let q = entered_at(s.work, far.at);
        let f = forward_meets(s.words, q);
        last = last_if(f, far.at, far.last);
        edges = far.edges + one_if(f);
        at = along_at(s.work, far.at);
    }
    let forward = last_mark(s.work, last, edges);
    Run {
        next: (at - LAST) / ROW_WORDS,
        forward,
        back: 0,
        edges,
        turned: 0,
    }
}

// The edges from a row to the rows of a run. It stays a loop for the same reason.
fn run_both(s: &Leaving, j: usize) -> Run
    requires { Related s.now j }
    ensures { RanFrom s.now j result }
{
    let mut at = j * ROW_WORDS;
    let mut last: usize = 0;
    let mut last_back: usize = 0;
    let mut edges: usize = 0;
    let mut turned: usize = 0;
    while at < LAST {
        let q = entered_at(s.work, at);
        let f = forward_meets(s.words, q);
        last = last_if(f, at, last);
        edges += one_if(f);
        let b = back_meets(s.words, q);
        last_back = last_if(b, at, last_back);
        turned += one_if(b);
        at = along_at(s.work, at);
    }
    let forward = last_mark(s.work, last, edges);
    let back = last_mark(s.work, last_back, turned);
    Run {
        next: (at - LAST) / ROW_WORDS,
        forward,
        back,
        edges,
        turned,
    }
}

// Where the chain of row j goes on, which is of another relation than the row that is left.
fn run_none(s: &Leaving, j: usize) -> Run
    requires { OnChain s.now j × (s.now.row.relation ≡ (row_at s.now.table.now j).relation → ⊥) }
    ensures { RanFrom s.now j result }
{
    let a = along_at(s.work, j * ROW_WORDS);
    if a < LAST {
        return Run {
            next: a / ROW_WORDS,
            forward: 0,
            back: 0,
            edges: 0,
            turned: 0,
        };
    }
    Run {
        next: (a - LAST) / ROW_WORDS,
        forward: 0,
        back: 0,
        edges: 0,
        turned: 0,
    }
}

// The edges from a row to the rows of the run that begins with row j, of this relation.
fn run_from(s: &Leaving, j: usize, relation: u64) -> Run
    requires { OnChain s.now j × (relation ≡ (row_at s.now.table.now j).relation) }
    ensures { RanFrom s.now j result }
{
    if s.row.relation != relation {
        return run_none(s, j);
    }
    if s.never {
        return run_forward(s, j);
    }
    run_both(s, j)
}

// Keeps the word of the forward edge to a row with this mark, if there is one.
fn keep_forward(words: &mut [u64], limit: usize, p: Row, q: Row, loose: bool, mark: u64)
    requires { Tables limit words.old }
    ensures { words.new ≡ kept_between limit p q words.old (cond (not (eqb mark 0)) (forward_word loose p.place mark) 0) }
{
    if mark != 0 {
        let w = forward_word(true, loose, p.place, mark);
        keep_between(words, limit, p, q, w);
    }
}

// The same of the back edge.
fn keep_back(words: &mut [u64], limit: usize, p: Row, q: Row, mark: u64)
    requires { Tables limit words.old }
    ensures { words.new ≡ kept_between limit p q words.old (cond (not (eqb mark 0)) (back_word p.place mark) 0) }
{
    if mark != 0 {
        let v = back_word(true, p.place, mark);
        keep_between(words, limit, p, q, v);
    }
}

// Counts the edges from a row to the rows of the run that begins with row j, and keeps their words. Tells the next row on the chain.
fn pick_run(s: &Leaving, limit: usize, j: usize, forwards: &mut [u64], backs: &mut [u64]) -> Run
    requires { OnChain s.now j × Tables limit forwards.old × Tables limit backs.old }
    ensures { RunAdded s.now.table.now s.now.count s.now.row limit j forwards.old backs.old forwards.new backs.new result }
{
    let q = whole_row(s.table, j);
    let t = run_from(s, j, q.relation);
    keep_forward(forwards, limit, s.row, q, s.loose, t.forward);
    keep_back(backs, limit, s.row, q, t.back);
    t
}

// The first row on the chain of a relation.
fn head_of(heads: &[u16; place_next::CHAINS], relation: u64) -> usize
    requires { get_or heads.now (relation % 64) 0 ≤ 512 }
    ensures { result ≡ get_or heads.now (relation % 64) 0 }
{
    heads[(relation % place_next::CHAINS as u64) as usize] as usize
}

// Counts the edges from a row to the rows on its chain, of which the first is given, and keeps their words. It stays a loop: a run tells where the
// next one begins.
fn pick_chain(
    s: &Leaving,
    first: usize,
    limit: usize,
    forwards: &mut [u64],
    backs: &mut [u64],
) -> Counts
    requires { ChainAt s.now limit first forwards.old backs.old forwards.old backs.old 0 0 × Tables limit forwards.old
        × Tables limit backs.old }
    ensures { RowKept limit s.now.table.now s.now.row s.now.count forwards.old backs.old forwards.new backs.new
        result.edges result.back }
{
    let mut edges: usize = 0;
    let mut back: usize = 0;
    let mut j = first;
    while j < s.count {
        let t = pick_run(s, limit, j, forwards, backs);
        edges += t.edges + t.turned;
        back += t.turned;
        j = t.next;
    }
    Counts { edges, back }
}

// Counts the edges from row i to each of the n rows, and keeps their words. Only the rows on its chain are met. Its parameters stand one by
// one: two of them are written to, and a struct of the others would be made for this call alone.
fn pick_row(
    table: &[u64],
    n: usize,
    heads: &[u16; place_next::CHAINS],
    work: &[u64],
    i: usize,
    limit: usize,
    forwards: &mut [u64],
    backs: &mut [u64],
) -> Counts
    requires { RowKnown table.now n heads.now work.now i limit forwards.old backs.old }
    ensures { RowAdded table.now n i limit forwards.old backs.old forwards.new backs.new result }
{
    let row = whole_row(table, i);
    let words = left_words(row);
    let never = never_back(words);
    let loose = kind_has(row.kind, LOOSE);
    let s = Leaving {
        table,
        count: n,
        work,
        row,
        words,
        never,
        loose,
    };
    let first = head_of(heads, row.relation);
    pick_chain(&s, first, limit, forwards, backs)
}

// Counts the edges of a table, and fills tables for so many nodes.
fn pick_rows(
    table: &[u64],
    limit: usize,
    next: &mut [u64],
    work: &mut [u64],
    forwards: &mut [u64],
    backs: &mut [u64],
) -> Counts
    requires { TableKnown table.now limit next.old work.old forwards.old backs.old }
    ensures rows_added { RowsAdded table.now limit forwards.new backs.new result }
    ensures next_lent { Lent next.old next.new }
    ensures work_lent { Lent work.old work.new }
{
    let n = row_count(table);
    clear(forwards, 0, limit * NODES);
    clear(backs, 0, limit * NODES);
    let heads = chain_rows(table, next);
    fill_work(table, n, next, work);
    let mut edges: usize = 0;
    let mut back: usize = 0;
    for i in 0..n {
        let t = pick_row(table, n, &heads, work, i, limit, forwards, backs);
        edges += t.edges;
        back += t.back;
    }
    Counts { edges, back }
}

// Counts the edges of a table, and picks for each pair of nodes the forward and the back edge that stand for all, the word for nodes u and v at
// u * 64 + v. The tables are filled for the nodes for which both have room, 64 at most, and stay as they were past them. The other words are lent to
// work in.
pub fn pick_edges(
    table: &[u64],
    next: &mut [u64; ROWS],
    work: &mut [u64; TABLE_WORDS],
    forwards: &mut [u64],
    backs: &mut [u64],
) -> Counts
    ensures picked_as { PickedAs table.now forwards.old backs.old forwards.new backs.new result }
    ensures next_lent { Lent next.old next.new }
    ensures work_lent { Lent work.old work.new }
{
    let room = (forwards.len() / NODES).min(backs.len() / NODES);
    let limit = NODES.min(room);
    let m = limit * NODES;
    pick_rows(
        table,
        limit,
        next,
        work,
        &mut forwards[..m],
        &mut backs[..m],
    )
}
