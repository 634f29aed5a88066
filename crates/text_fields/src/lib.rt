// Reads one value line of a workload text, where it stands.
#![tactic(auto)]

ghost use Rattle.std.specs.Prelude.{◌≡◌, [], ◌∷◌, true, false, cond, not, eqb, ◌+◌, ◌≤◌, ◌<◌, length, drop, MatchOption};
ghost use Rattle.std.proofs.Math.Option.{none, some};
ghost use Rattle.spec_text.specs.Text.{kind_of, newline, space};
ghost use Rattle.text_fields.specs.FieldStep.{Read, Reach, Decimal};
ghost use Rattle.text_fields.specs.Field.{number_if, set_if};
ghost use Rattle.text_fields.specs.InPlace.{ended_with, digits_run, digits_at, dash_at, field_at, line_after};
ghost use Rattle.text_fields.specs.LineIn.{line_step};

use spec_text::{Line, LineKind, StatementKind};
use text_lines::Reader;
use text_number::digit_of;

// How many bytes there are.
const BYTES: u32 = 256;

// The kind whose word these two bytes are; they make one number, the second byte first: few kinds share it, so that they are told apart by
// comparing alone. It is no TryFrom, since LineKind is another crate's.
fn kind_by(first: u8, second: u8) -> Option<LineKind>
    ensures { MatchOption result (none ≡ kind_of (first ∷ second ∷ [])) (λ k. some k ≡ kind_of (first ∷ second ∷ [])) }
{
    match u32::from(second) * BYTES + u32::from(first) {
        0x6c72 => Some(LineKind::Rl),
        0x6b66 => Some(LineKind::Fk),
        0x7270 => Some(LineKind::Pr),
        0x7369 => Some(LineKind::St(StatementKind::Is)),
        0x736b => Some(LineKind::St(StatementKind::Ks)),
        0x7370 => Some(LineKind::St(StatementKind::Ps)),
        0x756b => Some(LineKind::St(StatementKind::Ku)),
        0x7570 => Some(LineKind::St(StatementKind::Pu)),
        0x646b => Some(LineKind::St(StatementKind::Kd)),
        0x6470 => Some(LineKind::St(StatementKind::Pd)),
        0x6c6b => Some(LineKind::St(StatementKind::Kl)),
        0x6f6c => Some(LineKind::Lo),
        0x7262 => Some(LineKind::Br),
        0x6c65 => Some(LineKind::El),
        0x6e65 => Some(LineKind::En),
        0x696c => Some(LineKind::Li),
        _ => None,
    }
}

// The byte that ends a field: the last of a line, or another. A flag tells which, here and below, as in the definitions of specs/: an enum of two
// would say no more.
fn end_byte(last: bool) -> u8
    ensures { result ≡ cond last newline space }
{
    if last { b'\n' } else { b' ' }
}

// A value, and the place after the byte that ends its field; after the last field the text may end instead.
fn ended(text: &[u8], at: usize, value: u64, last: bool) -> Option<(u64, usize)>
    requires { at ≤ length text.now }
    ensures { Read text.now result (ended_with last value (drop at text.now)) }
{
    if at < text.len() {
        if text[at] == end_byte(last) {
            return Some((value, at + 1));
        }
        return None;
    }
    if last {
        return Some((value, at));
    }
    None
}

// The digits of a set after a first one, before a place that 15 of them reach, up to a byte that is none; 16 digits still fit a word.
fn set_run(text: &[u8], at: usize, first: u64, last: bool, limit: usize) -> Option<(u64, usize)>
    requires { (Reach at 15 (length text.now) limit) × (first < 16) }
    ensures { Read text.now result (digits_run last 16 15 first (drop at text.now)) }
{
    let mut value = first;
    for i in at..limit {
        let Some(d) = digit_of(text[i]) else {
            return ended(text, i, value, last);
        };
        value = value * 16 + d;
    }
    ended(text, limit, value, last)
}

// At most 15 digits of a set more after a first one. Where the text has so many bytes the compiler knows how often the loop can turn, and lays the
// turns out one after the other.
fn set_more(text: &[u8], at: usize, first: u64, last: bool) -> Option<(u64, usize)>
    requires { (at ≤ length text.now) × (first < 16) }
    ensures { Read text.now result (digits_run last 16 15 first (drop at text.now)) }
{
    if 15 < text.len() - at {
        return set_run(text, at, first, last, at + 15);
    }
    set_run(text, at, first, last, text.len())
}

// The digits of a set; a zero stands alone.
fn set_digits(text: &[u8], at: usize, last: bool) -> Option<(u64, usize)>
    ensures { Read text.now result (digits_at last 16 15 (drop at text.now)) }
{
    let d = digit_of(*text.get(at)?)?;
    if d == 0 {
        return ended(text, at + 1, 0, last);
    }
    set_more(text, at + 1, d, last)
}

// What the decimal digit at a place stands for.
fn decimal_at(text: &[u8], at: usize) -> Option<u64>
    ensures { Decimal text.now at result }
{
    match *text.get(at)? {
        b @ b'0'..=b'9' => Some(u64::from(b - b'0')),
        _ => None,
    }
}

// The digits of a number, at most 3; a zero stands alone.
fn number_digits(text: &[u8], at: usize) -> Option<(u64, usize)>
    ensures { Read text.now result (digits_at false 10 2 (drop at text.now)) }
{
    let a = decimal_at(text, at)?;
    if a == 0 {
        return ended(text, at + 1, 0, false);
    }
    let Some(b) = decimal_at(text, at + 1) else {
        return ended(text, at + 1, a, false);
    };
    let Some(c) = decimal_at(text, at + 2) else {
        return ended(text, at + 2, a * 10 + b, false);
    };
    ended(text, at + 3, (a * 10 + b) * 10 + c, false)
}

// `-`, which holds 0.
fn dash_at(text: &[u8], at: usize, last: bool) -> Option<(u64, usize)>
    ensures { Read text.now result (dash_at last (drop at text.now)) }
{
    if *text.get(at)? != b'-' {
        return None;
    }
    ended(text, at + 1, 0, last)
}

// A field for a number, where the kind has it: at most 3 decimal digits, and at most 255.
fn number_at(text: &[u8], at: usize, has: u64) -> Option<(u64, usize)>
    ensures { Read text.now result (field_at false (number_if (not (eqb has 0))) (drop at text.now)) }
{
    if has == 0 {
        return dash_at(text, at, false);
    }
    let (v, next) = number_digits(text, at)?;
    if v <= 255 { Some((v, next)) } else { None }
}

// A field for a set, where the kind has it.
fn set_at(text: &[u8], at: usize, has: u64, last: bool) -> Option<(u64, usize)>
    ensures { Read text.now result (field_at last (set_if (not (eqb has 0))) (drop at text.now)) }
{
    if has == 0 {
        return dash_at(text, at, last);
    }
    set_digits(text, at, last)
}

// The line of a kind whose six fields begin at a place: each is read from where the one before it says.
fn line_after(text: &[u8], at: usize, kind: LineKind) -> Option<(Line, usize)>
    ensures { Read text.now result (line_after kind (drop at text.now)) }
{
    let facts = line_kinds::line_facts(kind);
    let (id, a) = number_at(text, at, facts & line_kinds::ID)?;
    let (rel, b) = number_at(text, a, facts & line_kinds::REL)?;
    let (to, c) = number_at(text, b, facts & line_kinds::TO)?;
    let (reads, d) = set_at(text, c, facts & line_kinds::READS, false)?;
    let (writes, e) = set_at(text, d, facts & line_kinds::WRITES, false)?;
    let (tests, next) = set_at(text, e, facts & line_kinds::TESTS, true)?;
    let l = Line {
        kind,
        id: id as u8,
        rel: rel as u8,
        to: to as u8,
        reads,
        writes,
        tests,
    };
    Some((l, next))
}

// The value line that begins at a place of a text, and the place after it.
pub fn line_in(text: &[u8], at: usize) -> Option<(Line, usize)>
    ensures { result ≡ line_step text.now at }
{
    let n = text.len();
    if n <= at {
        return None;
    }
    if n - at < 3 {
        return None;
    }
    if text[at + 2] != b' ' {
        return None;
    }
    let kind = kind_by(text[at], text[at + 1])?;
    line_after(text, at + 3, kind)
}

// The value line that a reader comes to: the reader is taken apart.
pub fn read_line<'a>(r: Reader<'a>) -> Option<(Line, usize)>
    ensures { result ≡ line_step r.entry.text.now r.entry.place }
{
    line_in(r.text, r.place)
}

// The value line that a reader at a place of a text comes to, for callers with plain parameters: the reader is made here and passed on.
pub fn line_there(text: &[u8], place: usize, line: u64) -> Option<(Line, usize)>
    ensures { result ≡ line_step text.now place }
{
    read_line(Reader { text, place, line })
}
