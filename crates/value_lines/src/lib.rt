// The lines of a workload value as words, eight to a line: one line put into a table of lines, and the table of a whole value.
#![tactic(auto)]

ghost use Rattle.std.specs.Prelude.{◌≡◌, ◌*◌, length, take};
ghost use Rattle.spec_text.specs.Value.{lines_of};
ghost use Rattle.value_tables.specs.Lines.{line_number, mark_by, set_in, line_table, Zeros, line_put};

use edge_kinds::{SHIELD, kind_facts, kind_number, kind_of};
use line_kinds::line_facts;
use spec_text::{CELLS, Line, LineKind, Workload};
use value_tables::{BR, LI, LINE_TABLE, LINE_WORDS, LO, NO_ITEM, PR};
use word_rows::put_row;

// The number of a line's kind. It is no From, since LineKind is another crate's.
fn line_number(k: LineKind) -> u64
    ensures { result ≡ line_number k }
{
    match k {
        LineKind::Rl => NO_ITEM,
        LineKind::Fk => NO_ITEM,
        LineKind::Pr => PR,
        LineKind::St(s) => kind_number(s),
        LineKind::Lo => LO,
        LineKind::Br => BR,
        LineKind::El => NO_ITEM,
        LineKind::En => NO_ITEM,
        LineKind::Li => LI,
    }
}

// The mark of a line with this number: the bit of a statement's id where its kind shields, else 0: a word of the table, and no Option.
fn mark_by(n: u64, id: u8) -> u32
    ensures { result ≡ mark_by n id }
{
    if PR <= n {
        return 0;
    }
    if kind_facts(kind_of(n)) & SHIELD == 0 {
        return 0;
    }
    if id < 32 {
        return 1u32 << id;
    }
    0
}

// A set of a line, empty where its kind lacks it.
#[tactic(auto, unfolding(value_tables::specs::Lines::set_in))]
fn set_in(facts: u64, fact: u64, set: u64) -> u64
    ensures { result ≡ set_in facts fact set }
{
    if facts & fact == 0 { 0 } else { set }
}

// Puts the words of a line into a table of lines, as line number i, where the table has room for it.
pub fn put_line(words: &mut [u64], i: usize, l: Line)
    ensures { words.new ≡ line_put words.old i l }
{
    if CELLS <= i {
        return;
    }
    let kind = l.kind;
    let facts = line_facts(kind);
    let number = line_number(kind);
    put_row(
        words,
        i * LINE_WORDS,
        number,
        l.id as u64,
        l.rel as u64,
        l.to as u64,
        set_in(facts, line_kinds::READS, l.reads),
        set_in(facts, line_kinds::WRITES, l.writes),
        set_in(facts, line_kinds::TESTS, l.tests),
        mark_by(number, l.id) as u64,
    );
}

// The words of the lines of a workload value, from the table's start on.
pub fn line_table(w: Workload) -> [u64; LINE_TABLE]
    ensures { (take (w.count * 8) result ≡ line_table (lines_of w)) × (length result ≡ 12928) × Zeros (w.count * 8) result }
{
    let mut words = [0u64; LINE_TABLE];
    let lines = &w.lines[..w.count.min(CELLS)];
    for (i, l) in lines.iter().enumerate() {
        put_line(&mut words, i, *l);
    }
    words
}
