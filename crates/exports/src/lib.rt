// What is made of a text, as exports: reading, unfolding and the verdict, for timing beside plain Rust, and the edges, put into the caller's list.
// Each is one call from the bytes on, and one number answers it: bit 31 tells a refusal, and then its number and its line follow.
#![tactic(auto)]

ghost use Rattle.std.specs.Prelude.{◌≡◌};
ghost use Rattle.spec_text.specs.Reading.{read};
ghost use Rattle.exports.specs.Stages.{given, read_word, unfold_word, UnfoldStage, VerdictStage};
ghost use Rattle.exports.specs.TextEdges.{TextEdges};

use edge_record::Edge;
use export_edges::put_word;
use export_word::{nodes_word, refusal_word, value_word, verdict_word};
use refusal::Fault;
use spec_text::CELLS;
use unfold::Unfolded;
use verdict_told::numbered;

pub fn stage_read(text: &[u8]) -> u32
    ensures { result ≡ read_word (given text.now) }
{
    let p = text_read::read_text(text);
    match p {
        Ok(w) => {
            let middle = w.lines[w.count / 2 % CELLS];
            value_word(middle, w.count)
        }
        Err(r) => refusal_word(r.fault.number(), r.line),
    }
}

// How many unfoldings there are, and where the last one's statements end; or the refusal.
fn unfold_word(u: Result<Unfolded, Fault>) -> u32
    ensures { result ≡ unfold_word u }
{
    match u {
        Ok(u) => {
            let last = u.unfoldings[((u.count % 64 + 63) % 64) as usize];
            nodes_word(u.count, last.start, last.length)
        }
        Err(fault) => refusal_word(fault.number(), 0),
    }
}

pub fn stage_unfold(text: &[u8], area: &mut [u64]) -> u32
    ensures { UnfoldStage (given text.now) area.old result area.new }
{
    let p = text_read::read_text(text);
    match p {
        Ok(w) => {
            let u = unfold::unfold(w, area);
            unfold_word(u)
        }
        Err(r) => refusal_word(r.fault.number(), r.line),
    }
}

// Puts the edges of a text at the front of the caller's list; the rest of it stays as it was, and a refusal leaves all of it. Answers how many
// edges are put, at most 524,288, or the refusal. No text is refused by 21: its value is one that a text gives.
pub fn text_edges<'b, 'a>(text: &'b [u8], out: &'a mut [Edge]) -> u32
    ensures { TextEdges (read text.now) out.old result out.new }
{
    let p = text_read::read_text(text);
    match p {
        Ok(w) => {
            let put = edge_list::put_workload_edges(w, out);
            put_word(put.map_err(Fault::number))
        }
        Err(r) => refusal_word(r.fault.number(), r.line),
    }
}

// The verdict, with a dangerous walk in the area.
pub fn stage_verdict(text: &[u8], area: &mut [u64]) -> u32
    ensures { VerdictStage (given text.now) area.old result area.new }
{
    let p = text_read::read_text(text);
    match p {
        Ok(w) => {
            let v = verdict_of::verdict_of(w, area);
            verdict_word(numbered(v))
        }
        Err(r) => refusal_word(r.fault.number(), r.line),
    }
}
