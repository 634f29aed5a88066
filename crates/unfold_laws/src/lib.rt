// The types and constants of unfoldings; their laws are in specs/.
#![tactic(auto)]

ghost use Rattle.std.specs.Prelude.{◌≤◌, ◌↔◌, IsTrue};
ghost use Rattle.unfold_laws.specs.LineCodes.{code_number};

// A run or a block of lines: its unfoldings, the statements in them, and the line after it.
#[derive(Clone, Copy)]
pub struct Counted {
    pub count: u64,
    pub statements: u64,
    pub end: usize,
}

// S22: so many unfoldings at most, and so many statements in them. Counts stop above both: no rule tells larger ones apart.
pub const UNFOLDINGS: usize = 64;

pub const STATEMENTS: u64 = 512;

pub const STOP: u64 = 513;

// The unfoldings of the programs so far, and the statements in them.
#[derive(Clone, Copy)]
pub struct UnfoldingTotals {
    pub count: u64,
    pub statements: u64,
}

// What a line is to an unfolding.
#[derive(Clone, Copy, Debug, PartialEq, Eq)]
pub enum LineCode {
    Statement,
    // `lo`
    Loop,
    // `br`
    Branch,
    // `pr`
    Program,
    // every other kind
    Other,
}

impl LineCode {
    // Whether a statement or a block begins at the line: a run of lines ends before one where none does.
    pub fn begins_item(self) -> bool
        ensures { IsTrue result ↔ code_number self ≤ 2 }
    {
        match self {
            LineCode::Statement => true,
            LineCode::Loop => true,
            LineCode::Branch => true,
            LineCode::Program => false,
            LineCode::Other => false,
        }
    }
}

// The word of a place is the number of its line, which is below this, and this times what is seen there.
pub const WORD_LINES: u64 = 2048;
