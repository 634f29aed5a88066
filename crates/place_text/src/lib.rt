// The rows of all places of a text, in lent words: what its edges and its verdict are made from.
#![tactic(auto)]

ghost use Rattle.std.specs.Prelude.{◌≤◌, length, take};
ghost use Rattle.spec_text.specs.Reading.{read};
ghost use Rattle.lent_words.specs.Lent.{Lent};
ghost use Rattle.place_table.specs.LineRows.{LinesFilled};
ghost use Rattle.place_text.specs.Placed.{TextPlaced};
ghost use Rattle.refusal.specs.Told.{told};

use place_row::{ROW_WORDS, ROWS, TABLE_WORDS};
use place_table::Rows;
use refusal::{Fault, Refusal};
use value_tables::{LINE_TABLE, LINE_WORDS};

// What a text gives: how many programs and nodes it has, and how many words the rows of its places take.
#[derive(Clone, Copy)]
pub struct TextRows {
    pub programs: u64,
    pub nodes: u64,
    pub words: usize,
}

// The rows of the lines that the first words of a table of lines have.
fn line_rows(
    lines: &[u64],
    words: usize,
    places: &mut [u64; ROWS],
    rows: &mut [u64; TABLE_WORDS],
) -> Result<Rows, Fault>
    requires { words ≤ length lines.now }
    ensures { LinesFilled (take words lines.now) places.old rows.old result places.new rows.new }
{
    place_table::fill_lines(&lines[..words], places, rows)
}

// Reads any text and puts the rows of its places at the front of the lent table; the rest of the table stays as it was, all of it where the text is
// refused. State, lines and places are lent to work in: what they hold afterwards is free.
pub fn text_rows(
    text: &[u8],
    state: &mut [u64; line_state::WORDS],
    lines: &mut [u64; LINE_TABLE],
    places: &mut [u64; ROWS],
    rows: &mut [u64; TABLE_WORDS],
) -> Result<TextRows, Refusal>
    ensures text_placed { TextPlaced (read text.now) rows.old (told result) rows.new }
    ensures lent { Lent state.old state.new × Lent lines.old lines.new
        × Lent places.old places.new }
{
    let count = text_table::read_table(text, state, lines)?;
    match line_rows(lines, count * LINE_WORDS, places, rows) {
        Ok(filled) => Ok(TextRows {
            programs: filled.programs,
            nodes: filled.nodes,
            words: filled.places as usize * ROW_WORDS,
        }),
        Err(fault) => Err(fault.at(0)),
    }
}
