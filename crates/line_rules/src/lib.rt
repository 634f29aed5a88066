// What reading keeps of the lines taken so far, in 424 lent words: no line yet, and a line tested and taken. The tests are those of line_check, and
// taking is that of line_take; there the contracts speak of the words, here also of the lines taken (`HoldsWords`).
#![tactic(auto)]

ghost use Rattle.std.specs.Prelude.{◌≡◌, List, [], eqb};
ghost use Rattle.spec_text.specs.declared.Line.{Line as LineValue};
ghost use Rattle.spec_text.specs.Reading.{none_open};
ghost use Rattle.line_state.specs.StateWords.{state_in, started_in};
ghost use Rattle.line_rules.specs.WordsHold.{HoldsWords};
ghost use Rattle.line_rules.specs.Tested.{Tested};
ghost use Rattle.refusal.specs.Told.{number_told};

use line_state::WORDS;
use refusal::Fault;
use spec_text::Line;

// No line taken yet. The words may hold anything before.
pub fn start(words: &mut [u64; WORDS])
    ensures { (words.new ≡ started_in words.old) × HoldsWords words.new [] }
{
    line_state::start(words);
}

// The line taken, if it passes its tests after the lines taken; the words stay as they were where it fails one.
pub fn take_tested(words: &mut [u64; WORDS], l: Line) -> Result<(), Fault>
    ensures { Tested words.old l (number_told result) words.new }
{
    line_check::check(words, l)?;
    line_take::take(words, l);
    Ok(())
}

// How many blocks are open.
pub fn depth(words: &[u64; WORDS]) -> u64
    ensures { (result ≡ (state_in words.now).stack.depth)
        × ((lines : List LineValue) → HoldsWords words.now lines → none_open lines ≡ eqb result 0) }
{
    words[line_state::DEPTH]
}
