// What a run of lines counts: its unfoldings, the statements in them, and where it ends.
#![tactic(auto)]

ghost use Rattle.std.specs.Prelude.{◌≡◌, ◌+◌, ◌≤◌, ◌<◌, length};
ghost use Rattle.unfold_laws.specs.Cap.{plus, times};
ghost use Rattle.unfold_laws.specs.Codes.{nothing_at, loop_counted, branch_counted, next_counted, item_at, count_at};
ghost use Rattle.unfold_laws.specs.Pieces.{line_totals};
ghost use Rattle.value_tables.specs.Lines.{table_codes};
ghost use Rattle.unfold_count.specs.Counted.{Counting, RunCounted, PlaceCounted, Small, Totalled, AllCounted};
ghost use Rattle.unfold_count.specs.CountWords.{count_word, counted_in, Usable, Behind, Looked, Filled, Measured};

use unfold_bounds::line_after;
use unfold_laws::{Counted, LineCode, STOP, UnfoldingTotals, WORD_LINES};
use value_tables::{code_at, lines_in};

// The word for a run: its unfoldings, the statements in them times this, and the line after it times this twice.
const COUNTS: u32 = 1024;

// Sums and products that stop at 513: no rule tells larger counts apart.
#[tactic(auto, unfolding(unfold_laws::specs::Cap::cap))]
fn sum(a: u64, b: u64) -> u64
    requires { (a ≤ 513) × (b ≤ 513) }
    ensures { Small (plus a b) result }
{
    (a + b).min(STOP)
}

#[tactic(auto, unfolding(unfold_laws::specs::Cap::cap))]
fn product(a: u64, b: u64) -> u64
    requires { (a ≤ 513) × (b ≤ 513) }
    ensures { Small (times a b) result }
{
    (a * b).min(STOP)
}

#[tactic(auto, unfolding(unfold_laws::specs::Codes::nothing_at))]
fn nothing(at: usize) -> Counted
    ensures { result ≡ nothing_at at }
{
    Counted {
        count: 1,
        statements: 0,
        end: at,
    }
}

// A loop over a body: no turn, one turn, two turns.
fn count_loop(lines: usize, body: Counted) -> Counted
    requires { (body.count ≤ 513) × (body.statements ≤ 513) }
    ensures { result ≡ loop_counted lines body }
{
    let n = body.count;
    let s = body.statements;
    let count = sum(1, sum(n, product(n, n)));
    let statements = sum(s, sum(product(s, n), product(n, s)));
    let end = line_after(lines, body.end);
    Counted {
        count,
        statements,
        end,
    }
}

fn count_arms(lines: usize, one: Counted, two: Counted) -> Counted
    requires { (one.count ≤ 513) × (one.statements ≤ 513) × (two.count ≤ 513) × (two.statements ≤ 513) }
    ensures { result ≡ branch_counted lines one two }
{
    let count = sum(one.count, two.count);
    let statements = sum(one.statements, two.statements);
    let end = line_after(lines, two.end);
    Counted {
        count,
        statements,
        end,
    }
}

// A statement or block in front of a run: each of its unfoldings with each of the run's.
fn count_next(x: Counted, more: Counted) -> Counted
    requires { (x.count ≤ 513) × (x.statements ≤ 513) × (more.count ≤ 513) × (more.statements ≤ 513) }
    ensures { result ≡ next_counted x more }
{
    let count = product(x.count, more.count);
    let statements = sum(
        product(x.statements, more.count),
        product(x.count, more.statements),
    );
    Counted {
        count,
        statements,
        end: more.end,
    }
}

// A run's count as a word, and back. The lines and the words of their runs stay two parameters below: the public functions promise them so, and
// `fill` writes a word between two calls that read them.
#[tactic(auto, unfolding(crate::specs::CountWords::count_word))]
fn count_word(c: Counted) -> u32
    requires { (c.count ≤ 513) × (c.statements ≤ 513) × (c.end < 2048) }
    ensures { result ≡ count_word c }
{
    c.count as u32 + c.statements as u32 * COUNTS + c.end as u32 * COUNTS * COUNTS
}

#[tactic(auto, unfolding(crate::specs::CountWords::counted_in))]
fn word_counted(word: u32) -> Counted
    ensures { result ≡ counted_in word }
{
    Counted {
        count: (word % COUNTS) as u64,
        statements: (word / COUNTS % COUNTS) as u64,
        end: (word / COUNTS / COUNTS) as usize,
    }
}

// The run at a place, up to the first line that begins no statement or block of its own: as the word for it says where the words reach, else
// counted, by the words behind it. `left` bounds its lines.
#[cycle(block_by_run_behind_run_by)]
fn run_by(lines: &[u64], counts: &[u32], at: usize, left: usize) -> Counted
    requires { Usable (table_codes lines.now) counts.now at left }
    ensures { RunCounted left (table_codes lines.now) at result }
{
    if at < counts.len() {
        return word_counted(counts[at]);
    }
    if left == 0 {
        return nothing(at);
    }
    if lines_in(lines) <= at {
        return nothing(at);
    }
    run_behind(lines, counts, at, left - 1)
}

// The run at a line, whatever its word, by the words behind it.
#[cycle(block_by_run_behind_run_by)]
fn run_behind(lines: &[u64], counts: &[u32], at: usize, left: usize) -> Counted
    requires { Behind (table_codes lines.now) counts.now at left }
    ensures { RunCounted (left + 1) (table_codes lines.now) at result }
{
    if !code_at(lines, at).begins_item() {
        return nothing(at);
    }
    let x = block_by(lines, counts, at, left);
    let more = run_by(lines, counts, x.end, left);
    count_next(x, more)
}

// The statement or block at a line, in the same way.
#[cycle(block_by_run_behind_run_by)]
fn block_by(lines: &[u64], counts: &[u32], at: usize, left: usize) -> Counted
    requires { Behind (table_codes lines.now) counts.now at left }
    ensures { Counting (item_at (count_at left (table_codes lines.now)) (table_codes lines.now) at) result }
{
    match code_at(lines, at) {
        LineCode::Statement => Counted {
            count: 1,
            statements: 1,
            end: at + 1,
        },
        LineCode::Loop => {
            let body = run_by(lines, counts, at + 1, left);
            count_loop(lines_in(lines), body)
        }
        _ => {
            let one = run_by(lines, counts, at + 1, left);
            let n = lines_in(lines);
            let two = run_by(lines, counts, line_after(n, one.end), left);
            count_arms(n, one, two)
        }
    }
}

// The run at a place, counted with no words.
pub fn count_run(lines: &[u64], at: usize, left: usize) -> Counted
    ensures { RunCounted left (table_codes lines.now) at result }
{
    run_by(lines, &[], at, left)
}

// The statement or block at any place: past the lines nothing.
pub fn count_place(lines: &[u64], at: usize, left: usize) -> Counted
    ensures { PlaceCounted left (table_codes lines.now) at result }
{
    if lines_in(lines) <= at {
        return nothing(at);
    }
    block_by(lines, &[], at, left)
}

// The run at a place: as the word for it says where the words reach, else counted; past the lines nothing, with no call.
pub fn run_at(lines: &[u64], counts: &[u32], at: usize, left: usize) -> Counted
    ensures { Looked left (table_codes lines.now) counts.now at result }
{
    if at < counts.len() {
        return word_counted(counts[at]);
    }
    if lines_in(lines) <= at {
        return nothing(at);
    }
    count_run(lines, at, left)
}

// A line's part in the totals, by the words behind it: only a `pr` line has one.
fn count_line(
    lines: &[u64],
    counts: &[u32],
    at: usize,
    left: usize,
    t: UnfoldingTotals,
) -> UnfoldingTotals
    requires { Behind (table_codes lines.now) counts.now at left × (length (table_codes lines.now) ≡ at + 1 + left)
        × (t.count ≤ 513) × (t.statements ≤ 513) }
    ensures { Totalled (line_totals (table_codes lines.now) at t) result }
{
    match code_at(lines, at) {
        LineCode::Program => {
            let c = run_by(lines, counts, at + 1, left);
            let count = sum(t.count, c.count);
            let statements = sum(t.statements, c.statements);
            UnfoldingTotals { count, statements }
        }
        _ => t,
    }
}

// The unfoldings of all programs and the statements in them, each stopped at 513.
pub fn count_all(lines: &[u64]) -> UnfoldingTotals
    ensures { AllCounted (table_codes lines.now) result }
{
    let n = lines_in(lines);
    let mut t = UnfoldingTotals {
        count: 0,
        statements: 0,
    };
    for i in 0..n {
        t = count_line(lines, &[], i, n - 1 - i, t);
    }
    t
}

// The words for the runs at all lines, from the last line to the first, and the totals.
fn fill(lines: &[u64], counts: &mut [u32]) -> UnfoldingTotals
    requires { (length counts.old ≡ length (table_codes lines.now)) × (length counts.old < 2048) }
    ensures { Filled (table_codes lines.now) result counts.new }
{
    let n = counts.len();
    let mut t = UnfoldingTotals {
        count: 0,
        statements: 0,
    };
    for at in (0..n).rev() {
        let left = n - 1 - at;
        let c = run_behind(lines, counts, at, left);
        t = count_line(lines, counts, at, left, t);
        counts[at] = count_word(c);
    }
    t
}

// The totals, and where there is a word for each line and there are fewer than 2048, the words for the runs at them; else the words stay.
pub fn measure(lines: &[u64], counts: &mut [u32]) -> UnfoldingTotals
    ensures { Measured (table_codes lines.now) counts.old result counts.new }
{
    let n = lines_in(lines);
    if counts.len() != n {
        return count_all(lines);
    }
    if WORD_LINES as usize <= n {
        return count_all(lines);
    }
    fill(lines, counts)
}
