// What a line takes up in a text, from its values alone.
#![tactic(auto)]

ghost use Rattle.std.specs.Prelude.{◌≡◌, ◌≤◌, length};
ghost use Rattle.spec_text.specs.Text.{digits_of};
ghost use Rattle.law_text.specs.TextLaws.{line_fits};
ghost use Rattle.value_length.specs.Size.{value_fits, size_said, size_of};

use line_kinds::line_facts;
use spec_text::Line;

fn decimal_digits(n: u8) -> u64
    ensures { (result ≡ length (digits_of 10 3 n)) × (result ≤ 3) }
{
    if n < 10 {
        return 1;
    }
    if n < 100 {
        return 2;
    }
    3
}

// Four bits make a digit; the zeros in front of the highest bit make none.
fn hexadecimal_digits(set: u64) -> u64
    ensures { (result ≡ length (digits_of 16 16 set)) × (result ≤ 16) }
{
    if set == 0 {
        return 1;
    }
    let zeros = u64::leading_zeros(set) as u64;
    (67 - zeros) / 4
}

// A value whose field is not among these facts is 0.
fn value_fits(facts: u64, field: u64, value: u64) -> bool
    ensures { result ≡ value_fits facts field value }
{
    (facts & field != 0) | (value == 0)
}

// What the line's kind lacks holds 0.
fn line_fits(l: Line) -> bool
    ensures { result ≡ line_fits l }
{
    let kind = l.kind;
    let facts = line_facts(kind);
    let id = value_fits(facts, line_kinds::ID, l.id as u64);
    let rel = value_fits(facts, line_kinds::REL, l.rel as u64);
    let to = value_fits(facts, line_kinds::TO, l.to as u64);
    let reads = value_fits(facts, line_kinds::READS, l.reads);
    let writes = value_fits(facts, line_kinds::WRITES, l.writes);
    let tests = value_fits(facts, line_kinds::TESTS, l.tests);
    (id & rel & to) & (reads & writes & tests)
}

// The bytes that the line is written with, none where a value does not fit its field. What is not there is written as one byte, as 0 is: so in a line
// that fits each field takes up the digits of its value.
pub fn line_size(l: Line) -> Option<u64>
    ensures { size_said result ≡ size_of l }
{
    if !line_fits(l) {
        return None;
    }
    let numbers = decimal_digits(l.id) + decimal_digits(l.rel) + decimal_digits(l.to);
    let sets = hexadecimal_digits(l.reads)
        + hexadecimal_digits(l.writes)
        + hexadecimal_digits(l.tests);
    let bytes = 9 + numbers + sets;
    Some(bytes)
}
