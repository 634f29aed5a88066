// What the rules say of the kinds, as one table: which fields a line has, what the sets of a statement must be, which statement may be a
// link's parent. Code that reads lines asks a kind nothing else, so that a new kind of statement is a line here.
#![tactic(auto)]

ghost use Rattle.std.specs.Prelude.{◌≡◌, ◌<◌};
ghost use Rattle.line_kinds.specs.Kinds.{facts_of, line_facts};

use spec_text::{LineKind, StatementKind};

// The facts of a kind, a bit each. It has reads, writes, tests;
pub const READS: u64 = 1;

pub const WRITES: u64 = 2;

pub const TESTS: u64 = 4;

// its reads are not 0, its writes are not 0, its writes are the whole relation;
pub const SOME_READS: u64 = 8;

pub const SOME_WRITES: u64 = 16;

pub const WHOLE: u64 = 32;

// it may be a link's parent;
pub const PARENT: u64 = 64;

// it has an id, a rel, a to;
pub const ID: u64 = 128;

pub const REL: u64 = 256;

pub const TO: u64 = 512;

// it closes a block.
pub const CLOSES: u64 = 1024;

// The facts of a kind of statement.
pub fn facts_of(k: StatementKind) -> u64
    ensures { (result ≡ facts_of k) × (result < 128) }
{
    match k {
        StatementKind::Is => WRITES + WHOLE + PARENT,
        StatementKind::Ks => READS + SOME_READS + PARENT,
        StatementKind::Ps => READS + TESTS,
        StatementKind::Ku => READS + WRITES + SOME_WRITES + PARENT,
        StatementKind::Pu => READS + WRITES + TESTS + SOME_WRITES,
        StatementKind::Kd => WRITES + WHOLE + PARENT,
        StatementKind::Pd => WRITES + TESTS + WHOLE,
        StatementKind::Kl => READS + SOME_READS + PARENT,
    }
}

// The facts of a kind of line.
pub fn line_facts(k: LineKind) -> u64
    ensures { result ≡ line_facts k }
{
    match k {
        LineKind::Rl => ID + READS,
        LineKind::Fk => ID + REL + TO,
        LineKind::Pr => ID,
        LineKind::St(s) => ID + REL + facts_of(s),
        LineKind::Lo => 0,
        LineKind::Br => 0,
        LineKind::El => 0,
        LineKind::En => CLOSES,
        LineKind::Li => ID + REL + TO,
    }
}
