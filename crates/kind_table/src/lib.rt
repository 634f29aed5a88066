// Which letters can stand between two kinds of statement: a constant table of eight kinds against eight (Req 04).
#![tactic(auto)]

ghost use Rattle.std.specs.Prelude.{◌≡◌, get_or};
ghost use Rattle.edge_kinds.specs.Kinds.{kind_number};
ghost use Rattle.kind_table.specs.Codes.{codes_from, letter_table};

use edge_kinds::kind_number;
use spec_text::StatementKind;

// How many kinds there are: so many rows, and so many codes in each.
pub const KINDS: usize = 8;

// A code tells of each of the letters A to E whether it can hold between two statements over one relation, whatever sets the rules allow them:
// two bits to each letter, A's first; 00 impossible, 01 certain, 10 hanging on a meeting of its two sets. The same stands in its name, a place to
// each letter: `o` impossible, a capital certain, a small letter hanging.
const abcde: u32 = 0b10_10_10_10_10;

const abcdo: u32 = 0b10_10_10_10_00;

const abode: u32 = 0b10_10_00_10_10;

const abodo: u32 = 0b10_10_00_10_00;

const AbCoo: u32 = 0b01_10_01_00_00;

const Abooo: u32 = 0b01_10_00_00_00;

const AocdE: u32 = 0b01_00_10_10_01;

const Aocdo: u32 = 0b01_00_10_10_00;

const AoCoo: u32 = 0b01_00_01_00_00;

const AoodE: u32 = 0b01_00_00_10_01;

const Aoodo: u32 = 0b01_00_00_10_00;

const Aoooo: u32 = 0b01_00_00_00_00;

const obcoo: u32 = 0b00_10_10_00_00;

const obCoo: u32 = 0b00_10_01_00_00;

const obooo: u32 = 0b00_10_00_00_00;

const oBooo: u32 = 0b00_01_00_00_00;

const ooCoe: u32 = 0b00_00_01_00_10;

const ooCoE: u32 = 0b00_00_01_00_01;

const ooCoo: u32 = 0b00_00_01_00_00;

const ooode: u32 = 0b00_00_00_10_10;

const ooodE: u32 = 0b00_00_00_10_01;

const ooodo: u32 = 0b00_00_00_10_00;

const oooDo: u32 = 0b00_00_00_01_00;

const ooooe: u32 = 0b00_00_00_00_10;

const ooooE: u32 = 0b00_00_00_00_01;

const ooooo: u32 = 0b00_00_00_00_00;

// Rows: the kind of the statement that an edge leaves. Columns: the kind of the statement that it enters.
const LETTERS: [[u32; KINDS]; KINDS] = [
    // is     ks     ps     ku     pu     kd     pd     kl
    [ooooo, oBooo, obCoo, Abooo, AbCoo, Aoooo, AoCoo, oBooo], // is
    [ooooo, ooooo, ooooo, ooodo, ooodo, oooDo, oooDo, ooooo], // ks
    [ooooE, ooooo, ooooo, ooode, ooode, ooodE, ooodE, ooooo], // ps
    [ooooo, obooo, obcoo, abodo, abcdo, Aoodo, Aocdo, obooo], // ku
    [ooooE, obooo, obcoo, abode, abcde, AoodE, AocdE, obooo], // pu
    [ooooo, ooooo, ooCoo, ooooo, ooCoo, ooooo, ooCoo, ooooo], // kd
    [ooooE, ooooo, ooCoo, ooooe, ooCoe, ooooE, ooCoE, ooooo], // pd
    [ooooo, ooooo, ooooo, ooodo, ooodo, oooDo, oooDo, ooooo], // kl
];

// The bit of a code that says of a letter that it is certain.
pub const A: u32 = 0b01_00_00_00_00;

pub const B: u32 = 0b00_01_00_00_00;

pub const C: u32 = 0b00_00_01_00_00;

pub const D: u32 = 0b00_00_00_01_00;

pub const E: u32 = 0b00_00_00_00_01;

// The bits of a code that say that some letter is certain.
pub const CERTAIN: u32 = 0b01_01_01_01_01;

// The bit of a code that says of a letter that it hangs on its sets.
pub const A_HANGS: u32 = 0b10_00_00_00_00;

pub const B_HANGS: u32 = 0b00_10_00_00_00;

pub const C_HANGS: u32 = 0b00_00_10_00_00;

pub const D_HANGS: u32 = 0b00_00_00_10_00;

pub const E_HANGS: u32 = 0b00_00_00_00_10;

// The table, as the rules give it.
pub fn letters() -> [[u32; KINDS]; KINDS]
    ensures { result ≡ letter_table }
{
    LETTERS
}

// The codes of a kind that an edge leaves, looked up once for all that it may enter. Arms and no index: for an index that it does not know the
// compiler lays the whole table out anew.
pub fn codes_from(k: StatementKind) -> [u32; KINDS]
    ensures { result ≡ codes_from k }
{
    let table = letters();
    match k {
        StatementKind::Is => table[0],
        StatementKind::Ks => table[1],
        StatementKind::Ps => table[2],
        StatementKind::Ku => table[3],
        StatementKind::Pu => table[4],
        StatementKind::Kd => table[5],
        StatementKind::Pd => table[6],
        StatementKind::Kl => table[7],
    }
}

// Of the codes of a kind that an edge leaves, that of the kind which it enters.
pub fn code_to(codes: &[u32; KINDS], l: StatementKind) -> u32
    ensures { result ≡ get_or codes.now (kind_number l) 0 }
{
    codes[kind_number(l) as usize]
}
