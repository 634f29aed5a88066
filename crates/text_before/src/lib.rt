// What was taken of a text before its fault: how many lines, and of which sorts, so that a refusal can be explained.
#![tactic(auto)]

ghost use Rattle.std.specs.Prelude.{◌≡◌, List, [], drop};
ghost use Rattle.spec_text.specs.declared.Line.{Line as LineValue};
ghost use Rattle.spec_text.specs.Text.{lines_in};
ghost use Rattle.line_rules.specs.WordsHold.{HoldsWords};
ghost use Rattle.text_before.specs.Before.{taken_before, counts_of, before_of};

use text_fields::line_in;

// How much was taken: the lines, and of them the relations, keys and programs; of the program at hand, the lines after the last pr, the
// statements, the statements and flow, the links and the open blocks.
#[derive(Clone, Copy, Default)]
pub struct Before {
    pub lines: u64,
    pub relations: u64,
    pub keys: u64,
    pub programs: u64,
    pub statements: u64,
    pub body: u64,
    pub links: u64,
    pub depth: u64,
}

// The counts that the words keep of the lines taken.
fn counted(words: &[u64; line_state::WORDS]) -> Before
    ensures { (lines : List LineValue) → HoldsWords words.now lines → result ≡ counts_of lines }
{
    Before {
        lines: words[line_state::LINES],
        relations: words[line_state::RELATIONS],
        keys: words[line_state::KEYS],
        programs: words[line_state::PROGRAMS],
        statements: words[line_state::STATEMENTS],
        body: words[line_state::BODY],
        links: words[line_state::LINKS],
        depth: words[line_state::DEPTH],
    }
}

// Takes line after line from a place on, after the names line, up to a fault or the end. Where the next line begins is told by the line read, so
// no range counts the places.
fn before_lines(text: &[u8], start: usize) -> Before
    ensures { result ≡ counts_of (taken_before [] (lines_in (drop start text.now))) }
{
    let mut words = [0u64; line_state::WORDS];
    line_rules::start(&mut words);
    let mut at = start;
    while at < text.len() {
        let Some((l, next)) = line_in(text, at) else {
            break;
        };
        let Ok(()) = line_rules::take_tested(&mut words, l) else {
            break;
        };
        at = next;
    }
    counted(&words)
}

// What was taken of any text before its fault, or of an accepted text at all.
pub fn before_fault(text: &[u8]) -> Before
    ensures { result ≡ before_of text.now }
{
    match text_whole::whole_text(text) {
        Ok(place) => before_lines(text, place),
        Err(_) => Before::default(),
    }
}
