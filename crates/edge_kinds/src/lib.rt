// What rules E2, E3 and W ask of a kind of statement, as one table, and a kind as a number in a row. Code over places and edges asks a kind nothing
// else, but for the letters between two kinds (kind_table), so that a new kind of statement is a line here and a row and a column there.
#![tactic(auto)]

ghost use Rattle.std.specs.Prelude.{◌≡◌};
ghost use Rattle.spec_base.specs.Basic.{meets};
ghost use Rattle.edge_kinds.specs.Kinds.{kind_facts, kind_number, kind_of};

use spec_text::StatementKind;

// The facts of a kind, a bit each. A back D may leave it (E2); as a parent it shields (E3); a pair is dangerous where the first edge leaves it (W4).
// Which letters can hold between two kinds is in kind_table.
pub const SELECT: u64 = 1;

pub const SHIELD: u64 = 2;

pub const LOOSE: u64 = 4;

// The facts of a kind.
pub fn kind_facts(k: StatementKind) -> u64
    ensures { result ≡ kind_facts k }
{
    match k {
        StatementKind::Is => SHIELD,
        StatementKind::Ks => SELECT + LOOSE,
        StatementKind::Ps => SELECT + LOOSE,
        StatementKind::Ku => SHIELD,
        StatementKind::Pu => LOOSE,
        StatementKind::Kd => SHIELD,
        StatementKind::Pd => LOOSE,
        StatementKind::Kl => SHIELD,
    }
}

// Whether a kind has one of these facts.
pub fn kind_has(k: StatementKind, fact: u64) -> bool
    ensures { result ≡ meets (kind_facts k) fact }
{
    kind_facts(k) & fact != 0
}

// The number of a kind in a row, 0 to 7. Two functions and no From: both types are another crate's.
pub fn kind_number(k: StatementKind) -> u64
    ensures { result ≡ kind_number k }
{
    match k {
        StatementKind::Is => 0,
        StatementKind::Ks => 1,
        StatementKind::Ps => 2,
        StatementKind::Ku => 3,
        StatementKind::Pu => 4,
        StatementKind::Kd => 5,
        StatementKind::Pd => 6,
        StatementKind::Kl => 7,
    }
}

// How many kinds there are.
pub const KINDS: u64 = 8;

// The kind that a number in a row names. Numbers count modulo eight: with as many kinds no number needs a test, and most of the work on edges takes
// kinds out of rows.
pub fn kind_of(x: u64) -> StatementKind
    ensures { result ≡ kind_of x }
{
    let number = x % KINDS;
    match number {
        0 => StatementKind::Is,
        1 => StatementKind::Ks,
        2 => StatementKind::Ps,
        3 => StatementKind::Ku,
        4 => StatementKind::Pu,
        5 => StatementKind::Kd,
        6 => StatementKind::Pd,
        _ => StatementKind::Kl,
    }
}
