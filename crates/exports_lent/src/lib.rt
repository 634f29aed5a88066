// What is made of a text, as exports that work in words which the caller lends: for who judges many texts, and for timing beside plain Rust. The
// exports of crate exports ask for no such words. Each is one call from the bytes on, and one number answers it: bit 31 tells a refusal, and then its
// number and its line follow.
#![tactic(auto)]

ghost use Rattle.std.specs.Prelude.{◌≡◌, ◌≤◌, length, take};
ghost use Rattle.spec_text.specs.Reading.{read};
ghost use Rattle.lent_words.specs.Lent.{Lent};
ghost use Rattle.unfold.specs.UnfoldLines.{LastSettled};
ghost use Rattle.verdict_of.specs.TextVerdict.{RowsLeft};
ghost use Rattle.exports.specs.Stages.{given, read_word, UnfoldStage, VerdictStage};
ghost use Rattle.exports_lent.specs.LastWord.{LastWord};
ghost use Rattle.exports_lent.specs.Middle.{table_middle};
ghost use Rattle.exports.specs.TextEdges.{TextEdges};
ghost use Rattle.exports_lent.specs.Linked.{words_in, FirstLinked, TextLinked, RowsLinked};
ghost use Rattle.refusal.specs.Told.{told as said};

use edge_record::Edge;
use edge_word::PAIRS;
use export_edges::edges_word;
use export_word::{nodes_word, refusal_word, value_word, verdict_word};
use line_state::WORDS;
use place_row::{ROWS, TABLE_WORDS};
use place_text::TextRows;
use refusal::{Fault, Refusal};
use spec_text::{CELLS, Line, LineKind};
use unfold::LastTold;
use value_tables::{LINE_TABLE, LINE_WORDS};

// The values of the line in the middle of a table of so many lines, all 0 where there is none. Its kind is not told.
fn middle_line(lines: &[u64], count: usize) -> Line
    requires { length lines.now ≡ 12928 }
    ensures { result ≡ table_middle lines.now count }
{
    if count == 0 {
        return Line {
            kind: LineKind::En,
            id: 0,
            rel: 0,
            to: 0,
            reads: 0,
            writes: 0,
            tests: 0,
        };
    }
    let at = count / 2 % CELLS * 8;
    Line {
        kind: LineKind::En,
        id: (lines[at + 1] % 256) as u8,
        rel: (lines[at + 2] % 256) as u8,
        to: (lines[at + 3] % 256) as u8,
        reads: lines[at + 4],
        writes: lines[at + 5],
        tests: lines[at + 6],
    }
}

// Reads the text into the table of its lines. State and lines are lent to work in: what they hold afterwards is free.
pub fn lent_read(text: &[u8], state: &mut [u64; WORDS], lines: &mut [u64; LINE_TABLE]) -> u32
    ensures value { result ≡ read_word (given text.now) }
    ensures lent { Lent state.old state.new × Lent lines.old lines.new }
{
    let t = text_table::read_table(text, state, lines);
    match t {
        Ok(count) => {
            let middle = middle_line(lines, count);
            value_word(middle, count)
        }
        Err(r) => refusal_word(r.fault.number(), r.line),
    }
}

// The unfoldings of the lines that the first words of a table of lines have.
fn unfold_first(lines: &[u64], words: usize, area: &mut [u64]) -> Result<LastTold, Fault>
    requires { words ≤ length lines.now }
    ensures { LastSettled (take words lines.now) area.old result area.new }
{
    unfold::unfold_ids(&lines[..words], area)
}

// How many unfoldings there are, and where the last one's statements end; or the refusal.
fn last_word(u: Result<LastTold, Fault>) -> u32
    ensures { LastWord u result }
{
    match u {
        Ok(u) => nodes_word(u.count, u.start, u.length),
        Err(fault) => refusal_word(fault.number(), 0),
    }
}

// Reads the text and puts the ids of its unfoldings at the front of the area. The words are lent to work in: what they hold afterwards is free.
pub fn lent_unfold(
    text: &[u8],
    state: &mut [u64; WORDS],
    lines: &mut [u64; LINE_TABLE],
    area: &mut [u64],
) -> u32
    ensures unfold_stage { UnfoldStage (given text.now) area.old result area.new }
    ensures lent { Lent state.old state.new × Lent lines.old lines.new }
{
    let t = text_table::read_table(text, state, lines);
    match t {
        Ok(count) => {
            let u = unfold_first(lines, count * LINE_WORDS, area);
            last_word(u)
        }
        Err(r) => refusal_word(r.fault.number(), r.line),
    }
}

// Links the rows in the first words of a table. Words are lent for it.
fn link_first(rows: &mut [u64], words: usize, next: &mut [u64])
    requires { words ≤ length rows.old }
    ensures first_linked { FirstLinked words rows.old rows.new }
    ensures lent { Lent next.old next.new }
{
    place_link::link_rows(&mut rows[..words], next)
}

// How many words the rows of a text take: none where it is refused.
fn rows_words(t: Result<TextRows, Refusal>) -> usize
    ensures { result ≡ words_in (said t) }
{
    match t {
        Ok(t) => t.words,
        Err(_) => 0,
    }
}

// The rows of a text's places, linked.
fn linked_rows(
    text: &[u8],
    state: &mut [u64; WORDS],
    lines: &mut [u64; LINE_TABLE],
    places: &mut [u64; ROWS],
    rows: &mut [u64; TABLE_WORDS],
) -> Result<TextRows, Refusal>
    ensures { TextLinked (read text.now) rows.old (said result) rows.new
        × (Lent state.old state.new × Lent lines.old lines.new
        × Lent places.old places.new) }
{
    let t = place_text::text_rows(text, state, lines, places, rows);
    link_first(rows, rows_words(t), places);
    t
}

// Puts the edges of a text at the front of the caller's list; the rest of it stays as it was, and a refusal leaves all of it. Answers how many
// edges are put, at most 524,288, or the refusal. No text is refused by 21: its value is one that a text gives. The rows of its places
// stand in `rows`, linked; the other words are lent to work in: what they hold before and afterwards is free.
pub fn lent_edges<'b, 'c, 'd, 'e, 'f, 'a>(
    text: &'b [u8],
    state: &'c mut [u64; WORDS],
    lines: &'d mut [u64; LINE_TABLE],
    places: &'e mut [u64; ROWS],
    rows: &'f mut [u64; TABLE_WORDS],
    out: &'a mut [Edge],
) -> u32
    ensures { TextEdges (read text.now) out.old result out.new
        × (Lent state.old state.new × Lent lines.old lines.new
        × Lent places.old places.new × RowsLinked (read text.now) rows.old rows.new) }
{
    let t = linked_rows(text, state, lines, places, rows);
    let n = rows_words(t);
    let edges = edge_put::put_edges(&rows[..n], out);
    let put = edges.map_err(Fault::number);
    match t {
        Ok(_) => edges_word(0, 0, put),
        Err(r) => edges_word(r.fault.number(), r.line, put),
    }
}

// The verdict, with a dangerous walk in the area. The words are lent to work in: what they hold afterwards is free.
pub fn lent_verdict(
    text: &[u8],
    state: &mut [u64; WORDS],
    lines: &mut [u64; LINE_TABLE],
    places: &mut [u64; ROWS],
    rows: &mut [u64; TABLE_WORDS],
    work: &mut [u64; TABLE_WORDS],
    forwards: &mut [u64; PAIRS],
    backs: &mut [u64; PAIRS],
    area: &mut [u64],
) -> u32
    ensures verdict_stage { VerdictStage (given text.now) area.old result area.new }
    ensures lent { Lent state.old state.new × Lent lines.old lines.new
        × Lent places.old places.new × RowsLeft (read text.now) rows.old rows.new
        × Lent work.old work.new × Lent forwards.old forwards.new
        × Lent backs.old backs.new }
{
    let told = verdict_of::text_verdict(
        text, state, lines, places, rows, work, forwards, backs, area,
    );
    match told {
        Ok(v) => verdict_word(Ok(v)),
        Err(r) => refusal_word(r.fault.number(), r.line),
    }
}
