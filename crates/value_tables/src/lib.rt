// What the words of lines, eight to a line, tell line by line.
#![tactic(auto)]

ghost use Rattle.std.specs.Prelude.{◌≡◌, length, get_or};
ghost use Rattle.unfold_laws.specs.LineCodes.{code_number};
ghost use Rattle.value_tables.specs.Lines.{code_by, table_codes, table_ids, table_marks};

use unfold_laws::LineCode;

// The number of a line's kind: 0 to 7 for the kinds of statement (`kind_number`), then `pr`, `li`, `lo`, `br`, and one for every other. They are
// numbers and no enum because they stand in words that callers in C lend.
pub const PR: u64 = 8;

pub const LI: u64 = 9;

pub const LO: u64 = 10;

pub const BR: u64 = 11;

pub const NO_ITEM: u64 = 12;

// The words of a line: so many, the first the number of its kind, then in this order at these places. A link's child is its `rel`, its parent
// its `to`.
pub const LINE_WORDS: usize = 8;

pub const ID: usize = 1;

pub const REL: usize = 2;

pub const TO: usize = 3;

pub const READS: usize = 4;

pub const WRITES: usize = 5;

pub const TESTS: usize = 6;

pub const MARK: usize = 7;

// The words of all lines.
pub const LINE_TABLE: usize = 12928;

// The code of a line with this number. It is no From, since LineCode is another crate's.
fn code_by(n: u64) -> LineCode
    ensures { code_number result ≡ code_by n }
{
    if n < PR {
        return LineCode::Statement;
    }
    if n == PR {
        return LineCode::Program;
    }
    if n == LO {
        return LineCode::Loop;
    }
    if n == BR {
        return LineCode::Branch;
    }
    LineCode::Other
}

// How many lines words tell.
#[tactic(auto, using(crate::specs::TableLaws::codes_many))]
pub fn lines_in(lines: &[u64]) -> usize
    ensures { result ≡ length (table_codes lines.now) }
{
    lines.len() / LINE_WORDS
}

// The code of a line; past the lines a statement's.
#[tactic(auto, using(crate::specs::TableLaws::codes_many))]
pub fn code_at(lines: &[u64], at: usize) -> LineCode
    ensures { code_number result ≡ get_or (table_codes lines.now) at 0 }
{
    if lines_in(lines) <= at {
        return LineCode::Statement;
    }
    code_by(lines[at * LINE_WORDS])
}

// The id of a line; past the lines 0.
#[tactic(auto, using(crate::specs::TableLaws::codes_many))]
pub fn id_at(lines: &[u64], at: usize) -> u16
    ensures { result ≡ get_or (table_ids lines.now) at 0 }
{
    if lines_in(lines) <= at {
        return 0;
    }
    (lines[at * LINE_WORDS + ID] % 65536) as u16
}

// The mark of a line; past the lines 0.
#[tactic(auto, using(crate::specs::TableLaws::codes_many))]
pub fn mark_at(lines: &[u64], at: usize) -> u32
    ensures { result ≡ get_or (table_marks lines.now) at 0 }
{
    if lines_in(lines) <= at {
        return 0;
    }
    (lines[at * LINE_WORDS + MARK] % 4294967296) as u32
}
