// What is made of a text in words that the caller lends, as exports for programs in C and Rust, and for timing beside plain Rust: each is the
// function of crate exports_lent of that name, with its promise.
#![tactic(auto)]

ghost use Rattle.std.specs.Prelude.{◌≡◌};
ghost use Rattle.spec_text.specs.Reading.{read};
ghost use Rattle.lent_words.specs.Lent.{Lent};
ghost use Rattle.verdict_of.specs.TextVerdict.{RowsLeft};
ghost use Rattle.exports.specs.Stages.{given, read_word, UnfoldStage, VerdictStage};
ghost use Rattle.exports.specs.TextEdges.{TextEdges};
ghost use Rattle.exports_lent.specs.Linked.{RowsLinked};

use edge_record::Edge;
use edge_word::PAIRS;
use line_state::WORDS;
use place_row::{ROWS, TABLE_WORDS};
use value_tables::LINE_TABLE;

// Reads the text into the table of its lines. State and lines are lent to work in: what they hold afterwards is free.
#[unsafe(no_mangle)]
pub extern "C" fn lent_read(
    text: &[u8],
    state: &mut [u64; WORDS],
    lines: &mut [u64; LINE_TABLE],
) -> u32
    ensures value { result ≡ read_word (given text.now) }
    ensures lent { Lent state.old state.new × Lent lines.old lines.new }
{
    exports_lent::lent_read(text, state, lines)
}

// Reads the text and puts the ids of its unfoldings at the front of the area. The words are lent to work in: what they hold afterwards is free.
#[unsafe(no_mangle)]
pub extern "C" fn lent_unfold(
    text: &[u8],
    state: &mut [u64; WORDS],
    lines: &mut [u64; LINE_TABLE],
    area: &mut [u64],
) -> u32
    ensures unfold_stage { UnfoldStage (given text.now) area.old result area.new }
    ensures lent { Lent state.old state.new × Lent lines.old lines.new }
{
    exports_lent::lent_unfold(text, state, lines, area)
}

// Puts the edges of a text at the front of the caller's list; the rest of it stays as it was, and a refusal leaves all of it. Answers how many
// edges are put, at most 524,288, or the refusal. No text is refused by 21: its value is one that a text gives. The rows of its places
// stand in `rows`, linked; the other words are lent to work in: what they hold before and afterwards is free.
#[unsafe(no_mangle)]
pub extern "C" fn lent_edges<'b, 'c, 'd, 'e, 'f, 'a>(
    text: &'b [u8],
    state: &'c mut [u64; WORDS],
    lines: &'d mut [u64; LINE_TABLE],
    places: &'e mut [u64; ROWS],
    rows: &'f mut [u64; TABLE_WORDS],
    out: &'a mut [Edge],
) -> u32
    ensures { TextEdges (read text.now) out.old result out.new
        × (Lent state.old state.new × Lent lines.old lines.new
        × Lent places.old places.new × RowsLinked (read text.now) rows.old rows.new) }
{
    exports_lent::lent_edges(text, state, lines, places, rows, out)
}

// The verdict, with a dangerous walk in the area. The words are lent to work in: what they hold afterwards is free.
#[unsafe(no_mangle)]
pub extern "C" fn lent_verdict(
    text: &[u8],
    state: &mut [u64; WORDS],
    lines: &mut [u64; LINE_TABLE],
    places: &mut [u64; ROWS],
    rows: &mut [u64; TABLE_WORDS],
    work: &mut [u64; TABLE_WORDS],
    forwards: &mut [u64; PAIRS],
    backs: &mut [u64; PAIRS],
    area: &mut [u64],
) -> u32
    ensures verdict_stage { VerdictStage (given text.now) area.old result area.new }
    ensures lent { Lent state.old state.new × Lent lines.old lines.new
        × Lent places.old places.new × RowsLeft (read text.now) rows.old rows.new
        × Lent work.old work.new × Lent forwards.old forwards.new
        × Lent backs.old backs.new }
{
    exports_lent::lent_verdict(
        text, state, lines, places, rows, work, forwards, backs, area,
    )
}
