// Reads any text: its workload value, or its refusal.
#![tactic(auto)]

ghost use Rattle.std.specs.Prelude.{◌≡◌, [], drop};
ghost use Rattle.refusal.specs.Told.{told};
ghost use Rattle.spec_text.specs.Text.{lines_in};
ghost use Rattle.spec_text.specs.Reading.{read_lines, read};
ghost use Rattle.text_read.specs.Parse.{parsed_as, work_of};

use line_rules::take_tested;
use refusal::{Fault, Refusal};
use spec_text::{CELLS, Workload};
use text_fields::line_in;
use value_unused::unused_cells;

// Reads line after line from a place on, after the names line, up to a fault or the end, where no block may be open. The names line is line 1.
// Where the next line begins is told by the line read, so no range counts the places.
fn read_lines(text: &[u8], start: usize) -> Result<Workload, Refusal>
    ensures { told result ≡ parsed_as (read_lines [] (lines_in (drop start text.now))) }
{
    let mut w = unused_cells(0);
    let mut words = [0u64; line_state::WORDS];
    line_rules::start(&mut words);
    let mut at = start;
    while at < text.len() {
        let n = w.count;
        let line = n as u64 + 2;
        let (l, next) = line_in(text, at).ok_or(Fault::Fields.at(line))?;
        if let Err(fault) = take_tested(&mut words, l) {
            return Err(fault.at(line));
        }
        w.lines[n] = l;
        w.count = n + 1;
        at = next;
    }
    if line_rules::depth(&words) != 0 {
        return Err(Fault::Order.at(w.count as u64 + 1));
    }
    Ok(w)
}

// Reads any text.
pub fn read_text(text: &[u8]) -> Result<Workload, Refusal>
    ensures { told result ≡ parsed_as (read text.now) }
{
    let place = text_whole::whole_text(text)?;
    read_lines(text, place)
}

// The value that an answer of reading gives. A refused text gives none: in its place stands a value that no text gives (`no_workload`), which every
// later call refuses, so nobody who goes on with it can take the text for an accepted one.
pub fn work_of(r: Result<Workload, Refusal>) -> Workload
    ensures { result ≡ work_of (told r) }
{
    match r {
        Ok(w) => w,
        Err(_) => unused_cells(CELLS + 1),
    }
}
