// The code of two kinds (kind_table) where it is the only one that is looked up: taken out of words that hold four.
#![tactic(auto)]

ghost use Rattle.std.specs.Prelude.{cond, ◌≡◌, get_or, leb};
ghost use Rattle.kind_table.specs.Codes.{code_of, codes_from};
ghost use Rattle.kind_pair.specs.Packed.{packed, halves_of};

use edge_kinds::kind_number;
use kind_table::{KINDS, letters};
use spec_text::StatementKind;

// Four codes of a row are packed in a word, so many bits to each, below this number.
const PACKED: u64 = 4;

const CODE_BITS: u64 = 16;

const CODES: u64 = 65536;

// Four codes in a word.
fn packed_word(a: u32, b: u32, c: u32, d: u32) -> u64
    ensures { result ≡ packed a b c d }
{
    a as u64 % CODES
        + b as u64 % CODES * 65536
        + c as u64 % CODES * 4294967296
        + d as u64 % CODES * 281474976710656
}

// The codes of a row in two words.
fn halves_of(row: [u32; KINDS]) -> [u64; 2]
    ensures { result ≡ halves_of row }
{
    [
        packed_word(row[0], row[1], row[2], row[3]),
        packed_word(row[4], row[5], row[6], row[7]),
    ]
}

// The codes of a kind that an edge leaves in two words: all is known beforehand, so that the compiler keeps the words of the eight kinds. Arms and no
// index, for the same reason as in kind_table.
fn halves_from(k: StatementKind) -> [u64; 2]
    ensures { result ≡ halves_of (codes_from k) }
{
    let table = letters();
    match k {
        StatementKind::Is => halves_of(table[0]),
        StatementKind::Ks => halves_of(table[1]),
        StatementKind::Ps => halves_of(table[2]),
        StatementKind::Ku => halves_of(table[3]),
        StatementKind::Pu => halves_of(table[4]),
        StatementKind::Kd => halves_of(table[5]),
        StatementKind::Pd => halves_of(table[6]),
        StatementKind::Kl => halves_of(table[7]),
    }
}

// The half that holds the code of the kind with this number. No index but these two, so that the words stay in registers.
fn half_for(i: u64, halves: [u64; 2]) -> u64
    ensures { result ≡ cond (leb 4 i) (get_or halves 1 0) (get_or halves 0 0) }
{
    if PACKED <= i { halves[1] } else { halves[0] }
}

// The code of two kinds.
pub fn pair_code(k: StatementKind, l: StatementKind) -> u32
    ensures { result ≡ code_of k l }
{
    let i = kind_number(l);
    let halves = halves_from(k);
    let word = half_for(i, halves);
    ((word >> (i % PACKED * CODE_BITS)) % CODES) as u32
}
