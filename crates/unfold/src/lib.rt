// The unfoldings of a workload, written into a lent area: as statement ids, or as words that tell each place's line and what is seen there.
// They are read off a table of lines; how many unfoldings the run at each line has is counted once, from the last line to the first.
#![tactic(auto)]

ghost use Rattle.std.specs.Prelude.{◌≡◌, ◌+◌, ◌-◌, ◌≤◌, ◌<◌, length, get_or};
ghost use Rattle.unfold_laws.specs.Codes.{item_at, count_at};
ghost use Rattle.unfold_laws.specs.Pieces.{row, tabulate, line_pieces, line_programs, pieces_before};
ghost use Rattle.unfold_laws.specs.WordCode.{packed};
ghost use Rattle.unfold_laws.specs.Writing.{write_block, write_at};
ghost use Rattle.unfold_count.specs.CountWords.{Held};
ghost use Rattle.value_tables.specs.Lines.{table_codes};
ghost use Rattle.unfold.specs.LineWords.{words_by, marks_by, codes_in, words_in, marks_in};
ghost use Rattle.unfold.specs.Laid.{Laid, Stretched, Known, Countable, Parted};
ghost use Rattle.unfold.specs.Written.{table_at, Rows, Rowed, LineFits, Lined, AllFit, AllTold};
ghost use Rattle.unfold.specs.PieceTable.{Wide, table_none};
ghost use Rattle.unfold.specs.UnfoldInto.{Into};
ghost use Rattle.unfold.specs.UnfoldSettled.{Settled, PlacesSettled};
ghost use Rattle.unfold.specs.UnfoldLines.{LinePlacesSettled, LastSettled};
ghost use Rattle.unfold.specs.UnfoldSteps.{Tabled, ValueTabled};

use refusal::Fault;
use spec_text::{CELLS, Workload};
use unfold_bounds::{line_after, totals_refused};
use unfold_count::{measure, run_at};
use unfold_laws::{LineCode, UNFOLDINGS, WORD_LINES};
use value_given::is_given;
use value_lines::line_table;
use value_tables::{LINE_WORDS, code_at, id_at, lines_in, mark_at};

// So many lines have their counts in few words.
const FEW_LINES: usize = 48;

// An unfolding: its program, where it starts in the area, and how many places it has.
#[derive(Clone, Copy, Debug, PartialEq, Eq)]
pub struct Unfolding {
    pub program: u8,
    pub start: u64,
    pub length: u64,
}

// What a cell holds in which no unfolding stands.
pub const NO_UNFOLDING: Unfolding = Unfolding {
    program: 0,
    start: 0,
    length: 0,
};

// The unfoldings of a workload: how many there are, and each one, in the first cells.
#[derive(Clone, Copy)]
pub struct Unfolded {
    pub count: u64,
    pub unfoldings: [Unfolding; UNFOLDINGS],
}

// How many unfoldings there are, and the last one's start and length: of none, those of the last cell.
#[derive(Clone, Copy)]
pub struct LastTold {
    pub count: u64,
    pub start: u64,
    pub length: u64,
}

// What unfoldings are read off: a table of lines, the words for the runs at them, as far as they reach, and whether statements are told by their ids.
#[derive(Clone, Copy)]
struct Source<'a> {
    lines: &'a [u64],
    counts: &'a [u32],
    ids: bool,
}

// What is laid of a stretch of statements: how many words, and what is seen at the block after them; of none, where the run ends there, or the area.
#[derive(Clone, Copy)]
struct Stretch {
    many: usize,
    block: Option<u32>,
}

// What an unfolding of a block is: nothing, or one turn or two of the run at a line, each by its number.
#[derive(Clone, Copy)]
enum Part {
    Nothing,
    Once { line: usize, number: u64 },
    Twice { line: usize, one: u64, two: u64 },
}

// What is written so far: how many unfoldings, and how many places they take.
#[derive(Clone, Copy)]
struct Used {
    count: usize,
    used: usize,
}

// The word of a line with what is seen there: by its id, or by its number.
fn place_word(source: &Source, at: usize, seen: u32) -> u64
    requires { at < length (codes_in source.now) }
    ensures { result ≡ packed (get_or (words_in source.now) at 0) seen }
{
    if source.ids {
        return id_at(source.lines, at) as u64 + seen as u64 * WORD_LINES;
    }
    at as u64 + seen as u64 * WORD_LINES
}

// The mark of a line; where ids are written, no line is marked.
fn mark_by(source: &Source, at: usize) -> u32
    ensures { result ≡ get_or (marks_in source.now) at 0 }
{
    if source.ids {
        return 0;
    }
    mark_at(source.lines, at)
}

// Lays the words of the statements from a line on over an area, up to the first line that is none, or to the area's end; answers how many,
// and, where a block is next, what is seen there (each one's mark is).
fn write_stretch(source: &Source, seen: u32, at: usize, out: &mut [u64]) -> Stretch
    ensures { Stretched (codes_in source.now) (words_in source.now) (marks_in source.now) seen at
        out.old result out.new }
{
    // A copy, so that what it holds is not read again after each store.
    let here = *source;
    let n = lines_in(here.lines);
    let mut sees = seen;
    for m in 0..out.len() {
        let line = at + m;
        if n <= line {
            return Stretch {
                many: m,
                block: None,
            };
        }
        let code = code_at(here.lines, line);
        match code {
            LineCode::Statement => {}
            _ => {
                return Stretch {
                    many: m,
                    block: code.begins_item().then_some(sees),
                };
            }
        }
        out[m] = place_word(&here, line, sees);
        sees |= mark_by(&here, line);
    }
    Stretch {
        many: out.len(),
        block: None,
    }
}

// The line after the block at a place.
fn block_end(source: &Source, at: usize, left: usize) -> usize
    requires { (at < length (codes_in source.now)) × (get_or (codes_in source.now) at 0 ≡ 0 → ⊥)
        × Known (codes_in source.now) source.now.counts.now (at + 1) left }
    ensures { result ≡ (item_at (count_at left (codes_in source.now)) (codes_in source.now) at).end }
{
    let n = lines_in(source.lines);
    let body = run_at(source.lines, source.counts, at + 1, left);
    let second = line_after(n, body.end);
    match code_at(source.lines, at) {
        LineCode::Loop => second,
        _ => {
            let two = run_at(source.lines, source.counts, second, left);
            line_after(n, two.end)
        }
    }
}

// Lays the words of unfolding number k of the run at a place over an area, as far as it reaches; answers how many found room.
// The leftmost choice changes slowest: a block takes the quotient by what the run after it counts, that run the remainder.
// What is seen inside a block is not seen after it. The loop stays a `while`, since a turn lays as many words as a stretch and a block have.
#[cycle(write_block_write_run_write_turn)]
fn write_run(source: &Source, seen: u32, at: usize, left: usize, k: u64, out: &mut [u64]) -> usize
    requires { Known (codes_in source.now) source.now.counts.now at left }
    ensures { Laid (write_at left (codes_in source.now) (words_in source.now)
        (marks_in source.now) seen at k) out.old result out.new }
{
    let mut m: usize = 0;
    let mut here = at;
    let mut sees = seen;
    let mut rest = left;
    let mut number = k;
    while m < out.len() {
        let s = write_stretch(source, sees, here, &mut out[m..]);
        m += s.many;
        let Some(seen_there) = s.block else {
            return m;
        };
        let line = here + s.many;
        rest = rest - s.many - 1;
        here = block_end(source, line, rest);
        let more = run_at(source.lines, source.counts, here, rest);
        let n = more.count;
        sees = seen_there;
        m += write_block(source, sees, line, rest, number / n, &mut out[m..]);
        number = number % n;
    }
    m
}

// What unfolding number k of the block at a place is: of a loop no turn, one turn of each, two turns of each; of a branch the first arm's, then the
// second's.
fn block_part(source: &Source, at: usize, left: usize, k: u64) -> Part
    requires { (at < length (codes_in source.now)) × Known (codes_in source.now) source.now.counts.now (at + 1) left }
    ensures { Parted (codes_in source.now) source.now.counts.now left at k result }
{
    let first = at + 1;
    let body = run_at(source.lines, source.counts, first, left);
    let n = body.count;
    match code_at(source.lines, at) {
        LineCode::Loop => {
            if k == 0 {
                return Part::Nothing;
            }
            if k <= n {
                return Part::Once {
                    line: first,
                    number: k - 1,
                };
            }
            let j = k - 1 - n;
            Part::Twice {
                line: first,
                one: j / n,
                two: j % n,
            }
        }
        _ => {
            if k < n {
                return Part::Once {
                    line: first,
                    number: k,
                };
            }
            let second = line_after(lines_in(source.lines), body.end);
            Part::Once {
                line: second,
                number: k - n,
            }
        }
    }
}

// Lays the words of unfolding number k of the block at a place in the same way, turn after turn.
#[cycle(write_block_write_run_write_turn)]
fn write_block(source: &Source, seen: u32, at: usize, left: usize, k: u64, out: &mut [u64]) -> usize
    requires { (at < length (codes_in source.now)) × Known (codes_in source.now) source.now.counts.now (at + 1) left }
    ensures { Laid (write_block (write_at left (codes_in source.now) (words_in source.now)
        (marks_in source.now) seen) (count_at left (codes_in source.now)) (codes_in source.now) at k)
        out.old result out.new }
{
    match block_part(source, at, left, k) {
        Part::Nothing => 0,
        Part::Once { line, number } => write_turn(source, seen, line, left, number, out),
        Part::Twice { line, one, two } => {
            let m = write_turn(source, seen, line, left, one, out);
            m + write_run(source, seen, line, left, two, &mut out[m..])
        }
    }
}

// Lays the words of unfolding number k of the run at a place in the same way; a run of statements alone is laid with no call.
#[cycle(write_block_write_run_write_turn)]
fn write_turn(source: &Source, seen: u32, at: usize, left: usize, k: u64, out: &mut [u64]) -> usize
    requires { Known (codes_in source.now) source.now.counts.now at left }
    ensures { Laid (write_at left (codes_in source.now) (words_in source.now)
        (marks_in source.now) seen at k) out.old result out.new }
{
    let s = write_stretch(source, seen, at, out);
    let m = s.many;
    let Some(sees) = s.block else {
        return m;
    };
    m + write_run(source, sees, at + m, left - m, k, &mut out[m..])
}

// Writes the unfoldings k to n - 1 of the run at a place one after the other, the rest of the area lent on each time, and tells each.
// A recursion and no loop: the rest of the area is lent on (docs/RULES.md, L1).
fn write_rows(
    source: &Source,
    at: usize,
    left: usize,
    k: u64,
    n: u64,
    number: u8,
    t: Used,
    unfoldings: &mut [Unfolding],
    area: &mut [u64],
) -> Used
    requires known { Known (codes_in source.now) source.now.counts.now at left }
    requires rows { Rows (tabulate (row number (codes_in source.now) (words_in source.now) (marks_in source.now) at left) k (n - k))
        (table_at t unfoldings.old) area.old }
    ensures { Rowed (tabulate (row number (codes_in source.now) (words_in source.now)
        (marks_in source.now) at left) k (n - k))
        (table_at t unfoldings.old) area.old
        (table_at result unfoldings.new) area.new }
{
    if n <= k {
        return t;
    }
    let m = write_run(source, 0, at, left, k, area);
    let j = t.count;
    unfoldings[j] = Unfolding {
        program: number,
        start: t.used as u64,
        length: m as u64,
    };
    let u = Used {
        count: j + 1,
        used: t.used + m,
    };
    write_rows(
        source,
        at,
        left,
        k + 1,
        n,
        number,
        u,
        unfoldings,
        &mut area[m..],
    )
}

// Writes the unfoldings of the program after a `pr` line into the rest of the area; another line has none.
fn write_line(
    source: &Source,
    i: usize,
    number: u8,
    t: Used,
    unfoldings: &mut [Unfolding],
    area: &mut [u64],
) -> Used
    requires i_in_bounds { (i < length (codes_in source.now)) × Held (codes_in source.now) source.now.counts.now 0 }
    requires line_fits { LineFits (line_pieces (codes_in source.now) (words_in source.now) (marks_in source.now) i number)
        (table_at t unfoldings.old) area.old }
    ensures { Lined (line_pieces (codes_in source.now) (words_in source.now)
        (marks_in source.now) i number)
        (table_at t unfoldings.old) area.old
        (table_at result unfoldings.new) area.new }
{
    match code_at(source.lines, i) {
        LineCode::Program => {}
        _ => return t,
    }
    let left = lines_in(source.lines) - (i + 1);
    let c = run_at(source.lines, source.counts, i + 1, left);
    let used = t.used;
    write_rows(
        source,
        i + 1,
        left,
        0,
        c.count,
        number,
        t,
        unfoldings,
        &mut area[used..],
    )
}

// The number of the program that the next `pr` line begins.
fn next_program(lines: &[u64], i: usize, number: u8) -> u8
    requires { (i < length (table_codes lines.now)) × (number < 255) }
    ensures { result ≡ line_programs (table_codes lines.now) i number }
{
    match code_at(lines, i) {
        LineCode::Program => number + 1,
        _ => number,
    }
}

// Writes the unfoldings of all programs one after the other from the area's start, and tells each.
fn write_all(source: &Source, unfoldings: &mut [Unfolding], area: &mut [u64]) -> Used
    requires held { Held (codes_in source.now) source.now.counts.now 0 }
    requires all_fit { AllFit (pieces_before (codes_in source.now) (words_in source.now) (marks_in source.now)
        (length (codes_in source.now))) area.old }
    requires wide { Wide (table_none unfoldings.old) }
    ensures { AllTold (pieces_before (codes_in source.now) (words_in source.now)
        (marks_in source.now) (length (codes_in source.now)))
        (table_none unfoldings.old) area.old
        (table_at result unfoldings.new) area.new }
{
    let mut t = Used { count: 0, used: 0 };
    let mut number: u8 = 0;
    for i in 0..lines_in(source.lines) {
        t = write_line(source, i, number, t, unfoldings, area);
        number = next_program(source.lines, i, number);
    }
    t
}

// Counts the runs of a table of lines, as far as there are words for them, and writes its unfoldings, or refuses 22 or 20.
fn unfold_counted(
    lines: &[u64],
    counts: &mut [u32],
    ids: bool,
    unfoldings: &mut [Unfolding],
    area: &mut [u64],
) -> Result<u64, Fault>
    requires countable { Countable (table_codes lines.now) counts.old }
    requires wide { Wide (table_none unfoldings.old) }
    ensures { Into (λ u. Tabled (table_codes lines.now) (words_by ids lines.now) (marks_by ids lines.now)
        area.old u area.new) unfoldings.old result
        unfoldings.new }
{
    let t = measure(lines, counts);
    if let Some(fault) = totals_refused(t, area.len() as u64) {
        return Err(fault);
    }
    let source = Source {
        lines,
        counts: &*counts,
        ids,
    };
    let all = write_all(&source, unfoldings, area);
    Ok(all.count as u64)
}

// How many words the counts of so many lines take: of more lines than a workload has, each run is counted anew.
fn words_for(n: usize) -> usize
    ensures { (result ≤ 1616) × ((result ≡ 0 → ⊥) → result ≡ n) }
{
    if CELLS < n {
        return 0;
    }
    n
}

// The same with words for the counts, few where there are few lines: a small text is unfolded in less time than it takes to clear many.
fn unfold_told(
    lines: &[u64],
    ids: bool,
    unfoldings: &mut [Unfolding],
    area: &mut [u64],
) -> Result<u64, Fault>
    requires { Wide (table_none unfoldings.old) }
    ensures { Into (λ u. Tabled (table_codes lines.now) (words_by ids lines.now) (marks_by ids lines.now)
        area.old u area.new) unfoldings.old result
        unfoldings.new }
{
    let n = lines_in(lines);
    if FEW_LINES < n {
        let mut many = [0u32; CELLS];
        let m = words_for(n);
        return unfold_counted(lines, &mut many[..m], ids, unfoldings, area);
    }
    let mut few = [0u32; FEW_LINES];
    unfold_counted(lines, &mut few[..n], ids, unfoldings, area)
}

// The words for the places of the unfoldings of a table of lines, one after the other from the area's start, with each unfolding in the
// lent cells; or refuses 22 or 20.
pub fn unfold_into(
    lines: &[u64],
    unfoldings: &mut [Unfolding; UNFOLDINGS],
    area: &mut [u64],
) -> Result<u64, Fault>
    ensures { Into (λ u. LinePlacesSettled lines.now area.old u area.new)
        unfoldings.old result unfoldings.new }
{
    unfold_told(lines, false, unfoldings, area)
}

// The unfoldings of a table of lines as statement ids, one after the other from the area's start; told are how many there are and the last one. Or
// refuses 22 or 20.
pub fn unfold_ids(lines: &[u64], area: &mut [u64]) -> Result<LastTold, Fault>
    ensures { LastSettled lines.now area.old result area.new }
{
    let mut unfoldings = [NO_UNFOLDING; UNFOLDINGS];
    let count = unfold_told(lines, true, &mut unfoldings, area)?;
    let last = unfoldings[((count % 64 + 63) % 64) as usize];
    Ok(LastTold {
        count,
        start: last.start,
        length: last.length,
    })
}

// The unfoldings of a table of lines told as a value, by ids or by numbers of lines.
fn unfold_by(lines: &[u64], ids: bool, area: &mut [u64]) -> Result<Unfolded, Fault>
    ensures { Tabled (table_codes lines.now) (words_by ids lines.now) (marks_by ids lines.now)
        area.old result area.new }
{
    let mut unfoldings = [NO_UNFOLDING; UNFOLDINGS];
    let count = unfold_told(lines, ids, &mut unfoldings, area)?;
    Ok(Unfolded { count, unfoldings })
}

// The unfoldings of a workload value, by ids or by numbers of lines; a value that no text gives is refused.
fn unfold_value(w: Workload, ids: bool, area: &mut [u64]) -> Result<Unfolded, Fault>
    ensures { ValueTabled ids w area.old result area.new }
{
    if !is_given(w) {
        return Err(Fault::NotGiven);
    }
    let n = w.count * LINE_WORDS;
    let lines = line_table(w);
    unfold_by(&lines[..n], ids, area)
}

// The unfoldings of a workload value as statement ids, or refuses 21, 22 or 20.
pub fn unfold(w: Workload, area: &mut [u64]) -> Result<Unfolded, Fault>
    ensures { Settled w area.old result area.new }
{
    unfold_value(w, true, area)
}

// The same as words for places.
pub fn unfold_places(w: Workload, area: &mut [u64]) -> Result<Unfolded, Fault>
    ensures { PlacesSettled w area.old result area.new }
{
    unfold_value(w, false, area)
}
