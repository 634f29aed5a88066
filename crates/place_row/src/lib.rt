// A row of a table of places: what the edges need to know of one place of a node.
#![tactic(auto)]

use spec_text::StatementKind;

// Node and place count from 0. In the row of a place the sets that the kind lacks hold 0. Bit f of
// `keys` is set where key f shields the place as one that an edge leaves, bit 32 + f where it shields the place as one that an edge enters.
#[derive(Clone, Copy)]
pub struct Row {
    pub node: u64,
    pub place: u64,
    pub kind: StatementKind,
    pub relation: u64,
    pub reads: u64,
    pub writes: u64,
    pub tests: u64,
    pub keys: u64,
}

// The keys of the place entered stand this many times higher in the word.
pub const FAR: u64 = 4294967296;

// A table of places: so many words to a row, so many rows at most, and so many words for them all. It is of words, and not of rows, because callers
// in C lend it so.
pub const ROW_WORDS: usize = 8;

pub const ROWS: usize = 512;

pub const TABLE_WORDS: usize = 4096;

// Slots for edges: two to each pair of rows, the forward edge's first; so many to the row that an edge leaves, and so many in all.
pub const ROW_SLOTS: usize = 1024;

pub const SLOTS: usize = 524288;

// The place of each word in a row.
pub const NODE: usize = 0;

pub const PLACE: usize = 1;

pub const KIND: usize = 2;

pub const RELATION: usize = 3;

pub const READS: usize = 4;

pub const WRITES: usize = 5;

pub const TESTS: usize = 6;

pub const KEYS: usize = 7;
