// The choices of a node of a workload: which turns of each loop and which arm of each branch its unfolding takes.
#![tactic(auto)]

ghost use Rattle.std.specs.Prelude.{[], ◌≡◌, ◌≤◌, ◌<◌, length};
ghost use Rattle.unfold_laws.specs.Codes.{count_at};
ghost use Rattle.value_tables.specs.Lines.{table_codes};
ghost use Rattle.unfold_choice.specs.ChoiceWord.{choice_word};
ghost use Rattle.unfold_choice.specs.ChoicesSettled.{ChoicesSettled};
ghost use Rattle.unfold_choice.specs.ChoiceTable.{put_word, put_all, table_of};
ghost use Rattle.unfold_choice.specs.ChoiceSteps.{NodeFound, ChoicesOver};
ghost use Rattle.unfold_choice.specs.Telling.{tell_block, tell_at};

use refusal::Fault;
use spec_text::Workload;
use unfold_bounds::{line_after, totals_refused};
use unfold_count::{count_all, count_place, count_run};
use unfold_laws::{LineCode, STATEMENTS};
use value_given::is_given;
use value_lines::line_table;
use value_tables::{LINE_WORDS, code_at, lines_in};

// A choice as a word is its place times this, and what is taken: 0, 1 or 2 turns of a loop, arm 1 or 2 of a branch. The place is the number of the
// `lo` or `br` line.
pub const TAKEN: u64 = 4;

// An unfolding of a workload that S22 lets pass makes fewer choices than this.
pub const CHOICES: usize = 64;

// The choices of a node: its program, which unfolding of that program it is, how many choices it makes, and a word for each. There is no heap: the
// words stand in as many cells as there may be choices.
#[derive(Clone, Copy)]
pub struct Choices {
    pub program: u64,
    pub number: u64,
    pub count: u64,
    pub words: [u64; CHOICES],
}

// The words so far.
#[derive(Clone, Copy)]
struct ChoiceTable {
    count: usize,
    words: [u64; CHOICES],
}

// A node among the programs: the `pr` line of its program, the program's number, and which unfolding of the program it is.
#[derive(Clone, Copy)]
struct NodePlace {
    line: usize,
    program: u64,
    number: u64,
}

impl ChoiceTable {
    // No words.
    fn empty() -> ChoiceTable
        ensures { result ≡ table_of [] }
    {
        ChoiceTable {
            count: 0,
            words: [0u64; CHOICES],
        }
    }

    // With one choice more, where there is room.
    fn put(self, at: usize, taken: u64) -> ChoiceTable
        requires { (at ≤ 2048) × (taken ≤ 2) }
        ensures { result ≡ put_word self (choice_word at taken) }
    {
        let mut t = self;
        if t.count < CHOICES {
            t.words[t.count] = at as u64 * TAKEN + taken;
            t.count += 1;
        }
        t
    }
}

// Puts the choices of unfolding number k of the run at a place.
// The leftmost choice changes slowest: a block takes the quotient by what the run after it counts, that run the remainder.
#[cycle(tell_block_tell_run)]
fn tell_run(lines: &[u64], at: usize, left: usize, k: u64, t: ChoiceTable) -> ChoiceTable
    requires { length (table_codes lines.now) ≤ 2048 }
    ensures { result ≡ put_all t (tell_at left (table_codes lines.now) at k) }
{
    if left == 0 {
        return t;
    }
    if lines_in(lines) <= at {
        return t;
    }
    let code = code_at(lines, at);
    if !code.begins_item() {
        return t;
    }
    let rest = left - 1;
    match code {
        LineCode::Statement => tell_run(lines, at + 1, rest, k, t),
        _ => {
            let x = count_place(lines, at, rest);
            let more = count_run(lines, x.end, rest);
            let n = more.count;
            let c = tell_block(lines, at, rest, k / n, t);
            tell_run(lines, x.end, rest, k % n, c)
        }
    }
}

// The same for the block at a place: of a loop no turn, one turn of each, two turns of each; of a branch the first arm's, then the second's.
#[cycle(tell_block_tell_run)]
fn tell_block(lines: &[u64], at: usize, left: usize, k: u64, t: ChoiceTable) -> ChoiceTable
    requires { (at < length (table_codes lines.now)) × (length (table_codes lines.now) ≤ 2048) }
    ensures { result ≡ put_all t (tell_block (tell_at left (table_codes lines.now)) (count_at left (table_codes lines.now))
        (table_codes lines.now) at k) }
{
    let first = at + 1;
    let body = count_run(lines, first, left);
    let n = body.count;
    match code_at(lines, at) {
        LineCode::Loop => {
            if k == 0 {
                return t.put(at, 0);
            }
            if k <= n {
                let once = t.put(at, 1);
                return tell_run(lines, first, left, k - 1, once);
            }
            let j = k - 1 - n;
            let twice = t.put(at, 2);
            let turn = tell_run(lines, first, left, j / n, twice);
            tell_run(lines, first, left, j % n, turn)
        }
        _ => {
            if k < n {
                let one = t.put(at, 1);
                return tell_run(lines, first, left, k, one);
            }
            let second = line_after(lines_in(lines), body.end);
            let two = t.put(at, 2);
            tell_run(lines, second, left, k - n, two)
        }
    }
}

// Finds a node: the unfoldings of program after program are passed, until those of a program reach it.
fn find_node(lines: &[u64], node: u64) -> Option<NodePlace>
    ensures { NodeFound (table_codes lines.now) node result }
{
    let n = lines_in(lines);
    let mut program: u64 = 0;
    let mut number = node;
    for line in 0..n {
        match code_at(lines, line) {
            LineCode::Program => {}
            _ => continue,
        }
        let c = count_run(lines, line + 1, n - (line + 1));
        if number < c.count {
            return Some(NodePlace {
                line,
                program,
                number,
            });
        }
        number -= c.count;
        program += 1;
    }
    None
}

// The choices of a node over a table of lines, where there is one, or refuses 22. No lent area can be too short: the totals that pass 22 have room
// in 512.
fn choices_over(lines: &[u64], node: u64) -> Result<Option<Choices>, Fault>
    requires { length (table_codes lines.now) ≤ 2048 }
    ensures { ChoicesOver (table_codes lines.now) node result }
{
    let t = count_all(lines);
    if let Some(fault) = totals_refused(t, STATEMENTS) {
        return Err(fault);
    }
    let Some(f) = find_node(lines, node) else {
        return Ok(None);
    };
    let first = f.line + 1;
    let left = lines_in(lines) - first;
    let c = tell_run(lines, first, left, f.number, ChoiceTable::empty());
    let words = c.words;
    Ok(Some(Choices {
        program: f.program,
        number: f.number,
        count: c.count as u64,
        words,
    }))
}

// The choices of a node of a workload value; that there is no such node; or refuses 21 or 22.
pub fn choices_of(w: Workload, node: u64) -> Result<Option<Choices>, Fault>
    ensures { ChoicesSettled w node result }
{
    if !is_given(w) {
        return Err(Fault::NotGiven);
    }
    let n = w.count * LINE_WORDS;
    let lines = line_table(w);
    choices_over(&lines[..n], node)
}
