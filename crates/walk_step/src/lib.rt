// The least step out of a node that counts, over a table of places. A step is an edge as one word, ordered by the place left, the place entered, the
// flow (forward before back) and the node entered: so the lesser word is the lesser step.
#![tactic(auto)]

ghost use Rattle.std.specs.Prelude.{◌≡◌, ◌≤◌, ◌<◌, min, get_or};
ghost use Rattle.walk_step.specs.LeastStep.{has_word, opens_to, forward_counts, back_counts, counted_step, whole_needs, pair_step, least_step};
ghost use Rattle.kind_table.specs.Codes.{code_of};
ghost use Rattle.place_row.specs.RowTable.{row_at};
ghost use Rattle.walk_step.specs.LeastStep.{loose_row, loose_at};
ghost use Rattle.walk_step.specs.StepTurns.{may_count, row_least, from_row};

use edge_kinds::{LOOSE, kind_has};
use edge_test::{back_stands, forward_stands};
use edge_word::{NODES, PLACES};
use kind_pair::pair_code;
use place_fetch::{row_at, row_count};
use place_row::{ROW_WORDS, ROWS, Row};
use step_word::{LEAVES, NO_STEP, step_word};
use word_list::word_at;

// Further than any edge opens: no step counts that needs so much.
const NEVER: u64 = 1025;

// What a least step is sought by: a table with so many rows, and what is asked of a step into each node (least_step).
#[derive(Clone, Copy)]
struct Asked<'a> {
    table: &'a [u64],
    count: usize,
    needs: &'a [u64],
    limits: &'a [u64],
}

// Whether a word has room for a step into row q: its node is below 64 and its place below 1024.
#[tactic(auto, unfolding(crate::specs::LeastStep::has_word))]
fn has_word(q: Row) -> bool
    ensures { result ≡ has_word q }
{
    q.node < NODES as u64 && q.place < PLACES
}

// How far the forward edge from row p to row q opens: as far as any where it leaves a loose place, else up to the place that it enters.
fn opens_to(p: Row, q: Row) -> u64
    ensures { result ≡ opens_to p q }
{
    if kind_has(p.kind, LOOSE) {
        PLACES
    } else {
        q.place
    }
}

// Whether a forward edge stands from row p to row q and opens as far as is needed. How far is tested first: that is cheaper than the edge.
fn forward_counts(code: u32, p: Row, q: Row, need: u64) -> bool
    requires { code ≡ code_of p.kind q.kind }
    ensures { result ≡ forward_counts need p q }
{
    if opens_to(p, q) < need {
        return false;
    }
    forward_stands(code, p, q)
}

// Whether a back edge stands from row p to row q and leaves below the limit.
fn back_counts(code: u32, p: Row, q: Row, limit: u64) -> bool
    requires { code ≡ code_of p.kind q.kind }
    ensures { result ≡ back_counts limit p q }
{
    if limit <= p.place {
        return false;
    }
    back_stands(code, p, q)
}

// The word of the least step from row p to row q that counts. Of the two the forward step is less.
fn counted_step(p: Row, q: Row, need: u64, limit: u64) -> u64
    ensures { result ≡ counted_step need limit p q }
{
    // Most pairs of rows differ in their relation: they need no code.
    if p.relation != q.relation {
        return NO_STEP;
    }
    let code = pair_code(p.kind, q.kind);
    if forward_counts(code, p, q, need) {
        return step_word(p.place, q.place, false, q.node);
    }
    if back_counts(code, p, q, limit) {
        return step_word(p.place, q.place, true, q.node);
    }
    NO_STEP
}

// How far a step into node y must open. Into a node past the needs no step counts.
#[tactic(auto, using(crate::specs::MayLaws::whole_default))]
fn need_into(needs: &[u64], y: usize) -> u64
    requires { y < 64 }
    ensures { result ≡ get_or (whole_needs needs.now) y 0 }
{
    needs.get(y).copied().unwrap_or(NEVER)
}

// The lesser of the best word so far and that of the least step from row p to row q that counts. No step is less than the forward one.
fn better_step(asked: &Asked, p: Row, q: Row, best: u64) -> u64
    requires { best ≤ 134217728 }
    ensures { result ≡ min best (pair_step (whole_needs asked.now.needs.now) asked.now.limits.now p q) }
{
    if has_word(q) {
        let w = step_word(p.place, q.place, false, q.node);
        if w < best {
            let y = q.node as usize;
            let s = counted_step(p, q, need_into(asked.needs, y), word_at(asked.limits, y));
            if s < best {
                return s;
            }
        }
    }
    best
}

// Whether a step from a place into a row of node y can count, by what is asked for y alone. Most rows are passed over by this: it is cheaper than to
// take the row out of the table.
fn may_count(asked: &Asked, place: u64, y: u64) -> bool
    ensures { result ≡ may_count (whole_needs asked.now.needs.now) asked.now.limits.now place y }
{
    if y < NODES as u64 {
        let k = y as usize;
        if need_into(asked.needs, k) <= PLACES {
            return true;
        }
        return place < word_at(asked.limits, k);
    }
    false
}

// The lesser of the best word so far and that of the least step from row p to row j that counts.
fn with_row(asked: &Asked, j: usize, p: Row, best: u64) -> u64
    requires { best ≤ 134217728 }
    ensures { result
        ≡ min best (pair_step (whole_needs asked.now.needs.now) asked.now.limits.now p (row_at asked.now.table.now j)) }
{
    if j < ROWS {
        let y = word_at(asked.table, j * ROW_WORDS);
        if may_count(asked, p.place, y) {
            let q = row_at(asked.table, j);
            return better_step(asked, p, q, best);
        }
        return best;
    }
    let q = row_at(asked.table, j);
    better_step(asked, p, q, best)
}

// The least of the best word so far and those of the steps from row p to the rows of the table.
fn row_least(asked: &Asked, p: Row, best: u64) -> u64
    requires { best ≤ 134217728 }
    ensures { result ≡ row_least asked.now.table.now asked.now.count (whole_needs asked.now.needs.now) asked.now.limits.now p best }
{
    let mut least = best;
    for j in 0..asked.count {
        least = with_row(asked, j, p, least);
    }
    least
}

// The same from row p where it is of node x. A row from whose place on every word is too great is passed over.
fn from_row(asked: &Asked, x: u64, p: Row, best: u64) -> u64
    requires { best ≤ 134217728 }
    ensures { result ≡ from_row asked.now.table.now asked.now.count x (whole_needs asked.now.needs.now) asked.now.limits.now p best }
{
    if p.node != x {
        return best;
    }
    if p.place < PLACES {
        if p.place * LEAVES < best {
            return row_least(asked, p, best);
        }
    }
    best
}

// The same from row i. The row of another node is told by its first word: most rows are not taken out of the table.
fn from_place(asked: &Asked, x: u64, i: usize, best: u64) -> u64
    requires { best ≤ 134217728 }
    ensures { result
        ≡ from_row asked.now.table.now asked.now.count x (whole_needs asked.now.needs.now) asked.now.limits.now
        (row_at asked.now.table.now i) best }
{
    if i < ROWS {
        if word_at(asked.table, i * ROW_WORDS) != x {
            return best;
        }
    }
    let p = row_at(asked.table, i);
    from_row(asked, x, p, best)
}

// The word of the least step out of node x that counts: a forward edge into y where it opens as far as `needs` has it for y, a back edge into y where
// it leaves at a place below that of `limits` for y. Past the end of `needs` no forward step counts, past that of `limits` no back step. `NO_STEP`
// where none does.
pub fn least_step(table: &[u64], x: u64, needs: &[u64], limits: &[u64]) -> u64
    ensures { result ≡ least_step table.now x (whole_needs needs.now) limits.now }
{
    let count = row_count(table);
    let asked = Asked {
        table,
        count,
        needs,
        limits,
    };
    let mut best = NO_STEP;
    for i in 0..count {
        best = from_place(&asked, x, i, best);
    }
    best
}

// Whether the row is of node x, at the place, and loose.
#[tactic(auto, using(crate::specs::LooseLaws::loose_kind), unfolding(crate::specs::LeastStep::loose_row))]
fn loose_row(p: Row, x: u64, place: u64) -> bool
    ensures { result ≡ loose_row x place p }
{
    p.node == x && p.place == place && kind_has(p.kind, LOOSE)
}

// The same of row i. The row of another node is told by its first word.
fn loose_in(table: &[u64], i: usize, x: u64, place: u64) -> bool
    ensures { result ≡ loose_row x place (row_at table.now i) }
{
    if i < ROWS {
        if word_at(table, i * ROW_WORDS) != x {
            return false;
        }
    }
    let p = row_at(table, i);
    loose_row(p, x, place)
}

// Whether some row of node x at the place is loose. It stays a loop: with `any` over the range the proof was tried and did not close.
pub fn loose_at(table: &[u64], x: u64, place: u64) -> bool
    ensures { result ≡ loose_at table.now x place }
{
    let n = row_count(table);
    for k in 0..n {
        if loose_in(table, k, x, place) {
            return true;
        }
    }
    false
}
