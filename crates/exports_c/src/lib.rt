// What is made of a text, as exports for programs in C and Rust, and for timing beside plain Rust: each is the function of crate exports of that
// name, with its promise.
#![tactic(auto)]

ghost use Rattle.std.specs.Prelude.{◌≡◌};
ghost use Rattle.spec_text.specs.Reading.{read};
ghost use Rattle.exports.specs.Stages.{given, read_word, UnfoldStage, VerdictStage};
ghost use Rattle.exports.specs.TextEdges.{TextEdges};

use edge_record::Edge;

#[unsafe(no_mangle)]
pub extern "C" fn stage_read(text: &[u8]) -> u32
    ensures { result ≡ read_word (given text.now) }
{
    exports::stage_read(text)
}

#[unsafe(no_mangle)]
pub extern "C" fn stage_unfold(text: &[u8], area: &mut [u64]) -> u32
    ensures { UnfoldStage (given text.now) area.old result area.new }
{
    exports::stage_unfold(text, area)
}

// Puts the edges of a text at the front of the caller's list; the rest of it stays as it was, and a refusal leaves all of it. Answers how many
// edges are put, at most 524,288, or the refusal. No text is refused by 21: its value is one that a text gives.
#[unsafe(no_mangle)]
pub extern "C" fn text_edges<'b, 'a>(text: &'b [u8], out: &'a mut [Edge]) -> u32
    ensures { TextEdges (read text.now) out.old result out.new }
{
    exports::text_edges(text, out)
}

// The verdict, with a dangerous walk in the area.
#[unsafe(no_mangle)]
pub extern "C" fn stage_verdict(text: &[u8], area: &mut [u64]) -> u32
    ensures { VerdictStage (given text.now) area.old result area.new }
{
    exports::stage_verdict(text, area)
}
