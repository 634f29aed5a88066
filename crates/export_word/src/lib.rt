// The one word that answers an export, and what its bits mean: bit 31 tells a refusal, whose number and line follow; else the upper and the lower
// half hold two numbers, or the word is a count of edges, with bit 30 for danger.
#![tactic(auto)]

ghost use Rattle.std.specs.Prelude.{◌≡◌};
ghost use Rattle.verdict_told.specs.Told.{told_by};
ghost use Rattle.export_word.specs.Word.{refusal_word, value_word, nodes_word, verdict_word};

use spec_text::Line;
use verdict_told::Verdict;

// Bit 31.
const REFUSAL: u32 = 2147483648;

// Bit 30.
const DANGER: u32 = 1073741824;

// More edges than any workload has.
const EDGES: u64 = 1048576;

// Where the upper half begins: the lower one holds 16 bits.
const HALF: u64 = 65536;

// More than any sum of a line's values that is told.
const SUMS: u64 = 16384;

// So much of a set of attributes is added to the sum.
const SET: u64 = 4096;

// A refusal: its number in the upper half, its line in the lower one.
pub fn refusal_word(number: u8, line: u64) -> u32
    ensures { result ≡ refusal_word number line }
{
    REFUSAL + (number as u32) * HALF as u32 + (line % HALF) as u32
}

// A value that was read: the values of one of its lines, and how many lines it has.
pub fn value_word(l: Line, count: usize) -> u32
    ensures { result ≡ value_word l count }
{
    let small = l.id as u64 + l.rel as u64 + l.to as u64;
    let sum = (small + l.reads % SET + l.writes % SET + l.tests % SET) % SUMS;
    (sum * HALF + count as u64 % HALF) as u32
}

// Unfoldings: how many, and where the last one's statements end.
pub fn nodes_word(count: u64, start: u64, length: u64) -> u32
    ensures { result ≡ nodes_word count start length }
{
    (count % 256 * HALF + start % SUMS + length % SUMS) as u32
}

// A verdict: its edges, with bit 30 for danger; or the number of its refusal, which has no line.
#[tactic(auto, unfolding(crate::specs::Word::verdict_word))]
pub fn verdict_word(v: Result<Verdict, u8>) -> u32
    ensures { result ≡ verdict_word (told_by v) }
{
    match v {
        Ok(Verdict::Robust(c)) => (c.edges % EDGES) as u32,
        Ok(Verdict::Danger(c, _)) => DANGER + (c.edges % EDGES) as u32,
        Err(number) => refusal_word(number, 0),
    }
}
