// Reads any text into lent words: its lines as a table of eight words to a line (value_tables), or its refusal.
#![tactic(auto)]

ghost use Rattle.std.specs.Prelude.{◌≡◌, [], length, drop};
ghost use Rattle.refusal.specs.Told.{number_told, told};
ghost use Rattle.spec_text.specs.Text.{lines_in};
ghost use Rattle.spec_text.specs.Reading.{read_lines, read};
ghost use Rattle.lent_words.specs.Lent.{Lent};
ghost use Rattle.text_table.specs.Tabled.{TextTabled};
ghost use Rattle.text_table.specs.Taking.{LineTaken};

use refusal::{Fault, Refusal};
use spec_text::Line;
use text_fields::line_there;
use value_lines::put_line;
use value_tables::LINE_TABLE;

// Takes a line into the state and puts it into the table as line n, if it passes its tests.
fn take_line(
    state: &mut [u64; line_state::WORDS],
    lines: &mut [u64],
    n: usize,
    l: Line,
) -> Result<(), Fault>
    ensures { LineTaken state.old lines.old n l (number_told result) state.new lines.new }
{
    line_rules::take_tested(state, l)?;
    put_line(lines, n, l);
    Ok(())
}

// Reads line after line from a place on, after the names line, up to a fault or the end, where no block may be open. The names line is line 1.
// Where the next line begins is told by the line read, so no range counts the places.
fn table_lines(
    text: &[u8],
    start: usize,
    state: &mut [u64; line_state::WORDS],
    lines: &mut [u64],
) -> Result<usize, Refusal>
    requires { length lines.old ≡ 12928 }
    ensures { TextTabled (read_lines [] (lines_in (drop start text.now))) lines.old (told result) lines.new
        × Lent state.old state.new
        × Lent lines.old lines.new }
{
    line_rules::start(state);
    let mut at = start;
    let mut n: usize = 0;
    while at < text.len() {
        let line = n as u64 + 2;
        let (l, next) = line_there(text, at, line).ok_or(Fault::Fields.at(line))?;
        if let Err(fault) = take_line(state, lines, n, l) {
            return Err(fault.at(line));
        }
        n += 1;
        at = next;
    }
    if line_rules::depth(state) != 0 {
        return Err(Fault::Order.at(n as u64 + 1));
    }
    Ok(n)
}

// Reads any text: how many lines it has. The state is lent to work in: what it holds afterwards is free, and so is what the lines hold where the
// text is refused.
pub fn read_table(
    text: &[u8],
    state: &mut [u64; line_state::WORDS],
    lines: &mut [u64; LINE_TABLE],
) -> Result<usize, Refusal>
    ensures text_tabled { TextTabled (read text.now) lines.old (told result) lines.new }
    ensures lent { Lent state.old state.new × Lent lines.old lines.new }
{
    let place = text_whole::whole_text(text)?;
    table_lines(text, place, state, lines)
}
