// The tests of a whole text, before its lines: its length, its bytes, its last byte, its names line.
#![tactic(auto)]

ghost use Rattle.std.specs.Prelude.{◌≡◌, ◌≤◌, ◌<◌, length, MatchOption};
ghost use Rattle.std.proofs.Math.Option.{none, some};
ghost use Rattle.spec_base.specs.Basic.{all};
ghost use Rattle.refusal.specs.Told.{told};
ghost use Rattle.spec_text.specs.Reading.{is_allowed, other_byte, ends_line};
ghost use Rattle.text_whole.specs.Whole.{whole_of, line_after_byte, begins_named};

use refusal::{Fault, Refusal};

// A byte that a text may have. Joined by `&` and `|`, which branch nowhere: what a byte is is hard to foresee.
fn allowed(b: u8) -> bool
    ensures { result ≡ is_allowed b }
{
    let digit = (0x30 <= b) & (b <= 0x39);
    let letter = (0x61 <= b) & (b <= 0x7a);
    (b == 0x0a) | (b == 0x20) | (b == 0x2d) | digit | letter
}

// No byte is such that no text has it. The loop has no early end and no branch, so that many bytes are tested at once: `all` would end early.
fn all_allowed(text: &[u8]) -> bool
    ensures { result ≡ all is_allowed text.now }
{
    let mut ok = true;
    for b in text {
        ok = ok & allowed(*b);
    }
    ok
}

// The line of what follows a byte of a line.
fn line_after_byte(line: u64, b: u8) -> u64
    requires { line < 65536 }
    ensures { result ≡ line_after_byte line b }
{
    if b == 0x0a {
        return line + 1;
    }
    line
}

// The line of the first byte that no text has.
fn other_byte(text: &[u8]) -> Option<u64>
    requires { length text.now ≤ 32768 }
    ensures { MatchOption result (other_byte 1 text.now ≡ none) (λ line. other_byte 1 text.now ≡ some line) }
{
    let mut line: u64 = 1;
    for b in text {
        if !allowed(*b) {
            return Some(line);
        }
        line = line_after_byte(line, *b);
    }
    None
}

// The same, where most texts have no such byte, and one test tells so.
fn refused_byte(text: &[u8]) -> Option<u64>
    requires { length text.now ≤ 32768 }
    ensures { MatchOption result (other_byte 1 text.now ≡ none) (λ line. other_byte 1 text.now ≡ some line) }
{
    if all_allowed(text) {
        return None;
    }
    other_byte(text)
}

// There is a byte and the last ends a line.
fn ends_line(text: &[u8]) -> bool
    ensures { result ≡ ends_line text.now }
{
    let n = text.len();
    if n == 0 {
        return false;
    }
    text[n - 1] == 0x0a
}

// The names line and the byte that ends it.
const NAMES: &[u8] = b"kind id rel to reads writes tests\n";

// The text begins with the names line and the byte that ends it.
fn begins_named(text: &[u8]) -> bool
    ensures { result ≡ begins_named text.now }
{
    text.starts_with(NAMES)
}

// Tests the whole text, its bytes and its first line; gives the place after the names line.
pub fn whole_text(text: &[u8]) -> Result<usize, Refusal>
    ensures { told result ≡ whole_of text.now }
{
    if spec_text::TEXT_BYTES < text.len() {
        return Err(Fault::Length.at(0));
    }
    if let Some(line) = refused_byte(text) {
        return Err(Fault::Bytes.at(line));
    }
    if !ends_line(text) {
        return Err(Fault::Bytes.at(0));
    }
    if !begins_named(text) {
        return Err(Fault::Names.at(1));
    }
    Ok(NAMES.len())
}
