// The table of kinds as bytes: a line of names, then a line for each two kinds (Req 05).
#![tactic(auto)]

ghost use Rattle.std.specs.Prelude.{◌≡◌, ◌+◌, ◌*◌, ◌<◌, ◌≤◌, ◌++◌, length, take, drop};
ghost use Rattle.std.proofs.Math.Seq.{paste};
ghost use Rattle.spec_text.specs.Text.{word_of, digit};
ghost use Rattle.spec_text.specs.declared.LineKind.TheVariants.{St};
ghost use Rattle.spec_kinds.specs.Table.{digit_of, KindTable};
ghost use Rattle.kind_print.specs.Lines.{line_at};

use edge_kinds::{KINDS, kind_of};
use kind_chances::entry_of;
use spec_kinds::Chance;
use spec_text::StatementKind;

// The bytes of the names, of each line, and of the whole table.
const NAMES_BYTES: usize = 18;

const LINE_BYTES: usize = 16;

pub const TABLE_BYTES: usize = 1042;

// The lines: one for each two kinds.
const LINES: usize = 64;

// The two letters of a kind. It is no From, since both types are another crate's.
#[tactic(auto, unfolding(spec_text::specs::Text::word_of))]
fn word_of(k: StatementKind) -> [u8; 2]
    ensures { result ≡ word_of (St k) }
{
    match k {
        StatementKind::Is => *b"is",
        StatementKind::Ks => *b"ks",
        StatementKind::Ps => *b"ps",
        StatementKind::Ku => *b"ku",
        StatementKind::Pu => *b"pu",
        StatementKind::Kd => *b"kd",
        StatementKind::Pd => *b"pd",
        StatementKind::Kl => *b"kl",
    }
}

// The digit of a chance, as a byte. It is no From, since Chance is another crate's.
#[tactic(auto, unfolding(spec_text::specs::Text::digit))]
fn digit_of(c: Chance) -> u8
    ensures { result ≡ digit (digit_of c) }
{
    match c {
        Chance::Impossible => b'0',
        Chance::Certain => b'1',
        Chance::Hanging => b'2',
    }
}

// Line i of the table, counted from 0 after the names: the kind that an edge enters changes fastest.
fn line_at(i: usize) -> [u8; LINE_BYTES]
    ensures { result ≡ line_at i }
{
    let from = word_of(kind_of(i as u64 / KINDS));
    let to = word_of(kind_of(i as u64 % KINDS));
    let entry = entry_of(kind_of(i as u64 / KINDS), kind_of(i as u64 % KINDS));
    [
        from[0],
        from[1],
        b' ',
        to[0],
        to[1],
        b' ',
        digit_of(entry.a),
        b' ',
        digit_of(entry.b),
        b' ',
        digit_of(entry.c),
        b' ',
        digit_of(entry.d),
        b' ',
        digit_of(entry.e),
        b'\n',
    ]
}

// Copies bytes to the front of an area.
fn put_front(bytes: &[u8], out: &mut [u8])
    requires { length bytes.now ≤ length out.old }
    ensures { out.new ≡ take (length bytes.now) bytes.now ++ drop (length bytes.now) out.old }
{
    out[..bytes.len()].copy_from_slice(bytes);
}

// Writes line i of the table to its place.
fn put_line(out: &mut [u8], i: usize)
    requires { (1042 ≡ length out.old) × (i < 64) }
    ensures { out.new ≡ paste out.old (18 + i * 16) (line_at i) 16 }
{
    let line = line_at(i);
    put_front(&line, &mut out[NAMES_BYTES + i * LINE_BYTES..]);
}

// Writes the table into an area of its length.
fn fill(out: &mut [u8])
    requires { 1042 ≡ length out.old }
    ensures { KindTable out.new }
{
    put_front(b"from to a b c d e\n", out);
    for i in 0..LINES {
        put_line(out, i);
    }
}

// The table of kinds.
pub fn table() -> [u8; TABLE_BYTES]
    ensures { KindTable result }
{
    let mut out = [0u8; TABLE_BYTES];
    fill(&mut out);
    out
}
