// The workload value: what a text is read into, as the values of its lines. Believed.
#![tactic(auto)]

// The eight kinds of statement; Kl is Req 03's.
#[derive(Clone, Copy, PartialEq, Eq)]
pub enum StatementKind {
    Is,
    Ks,
    Ps,
    Ku,
    Pu,
    Kd,
    Pd,
    Kl,
}

// The kinds of line; St is a statement of one of the eight kinds.
#[derive(Clone, Copy, PartialEq, Eq)]
pub enum LineKind {
    Rl,
    Fk,
    Pr,
    St(StatementKind),
    Lo,
    Br,
    El,
    En,
    Li,
}

// A line: its kind and its six other values; a field that the kind does not have holds 0.
#[derive(Clone, Copy, PartialEq, Eq)]
pub struct Line {
    pub kind: LineKind,
    pub id: u8,
    pub rel: u8,
    pub to: u8,
    pub reads: u64,
    pub writes: u64,
    pub tests: u64,
}

// The bounds of the rules: a text has at most so many bytes, and after its names line at most so many lines.
pub const TEXT_BYTES: usize = 32768;

pub const CELLS: usize = 1616;

// A workload: its lines after the names line. Cells past `count` hold `unused_line` of specs/Text: kind En and six zeros.
#[derive(Clone, Copy, PartialEq, Eq)]
pub struct Workload {
    pub count: usize,
    pub lines: [Line; CELLS],
}
