// Whether edges stand between two rows of one relation in a table of places, by a few words of each: what hangs on one row alone is worked out once
// for all rows that it meets, so that a pair takes no look at its kinds (specs/PairWords). That the words tell what the rules say is in
// specs/PairLaws.
#![tactic(auto)]

ghost use Rattle.std.specs.Prelude.{cond, ◌≡◌};
ghost use Rattle.spec_base.specs.Basic.{meets};
ghost use Rattle.edge_pair.specs.PairWords.{kind_bit, sure_of, left_of, entered_of};

use place_row::{FAR, Row};
use spec_text::StatementKind;

// What a row says as one that an edge leaves. `sure`: the kinds with which some letter is certain; `writes` makes an edge where it meets what the row
// entered writes, `updates` where it meets what that row reads or tests. For back edges: the kinds with which E is certain and what E asks of the
// writes; for a select that no key shields the same of D.
#[derive(Clone, Copy)]
pub struct Left {
    pub sure: u64,
    pub writes: u64,
    pub updates: u64,
    pub phantom: u64,
    pub phantoms: u64,
    pub select: u64,
    pub selected: u64,
    pub keys: u64,
}

// What a row says as one that an edge enters: its kind as a bit, what it writes, what it reads or tests (where some kind asks for them), and the keys
// that shield it there.
#[derive(Clone, Copy)]
pub struct Entered {
    pub bit: u64,
    pub writes: u64,
    pub looks: u64,
    pub far: u64,
}

// The bit of each kind in a word of kinds: they stand in the order of their numbers.
const IS: u64 = 1 << (StatementKind::Is as u64);

const KS: u64 = 1 << (StatementKind::Ks as u64);

const PS: u64 = 1 << (StatementKind::Ps as u64);

const KU: u64 = 1 << (StatementKind::Ku as u64);

const PU: u64 = 1 << (StatementKind::Pu as u64);

const KD: u64 = 1 << (StatementKind::Kd as u64);

const PD: u64 = 1 << (StatementKind::Pd as u64);

const KL: u64 = 1 << (StatementKind::Kl as u64);

// Words of kinds: the updates; the kinds that read; those that have tests; those whose writes letters ask for where they are entered; those that make
// or take away rows, and those that take away; the selects.
const UPDATES: u64 = KU | PU;

const READERS: u64 = KS | PS | KU | PU | KL;

const TESTERS: u64 = PS | PU | PD;

const WRITERS: u64 = KU | PU | KD | PD;

const EXISTENCE: u64 = IS | DELETES;

const DELETES: u64 = KD | PD;

const KEY_SELECT: u64 = KS;

const SELECTS: u64 = KS | PS;

// A word that a row gives if its kind is among these, else 0: a word and no Option, since the words of a row are joined.
fn among(kinds: u64, bit: u64, x: u64) -> u64
    ensures { result ≡ cond (meets kinds bit) x 0 }
{
    if kinds & bit != 0 { x } else { 0 }
}

// The bit of a kind. It is no From, since both types are another crate's.
fn kind_bit(k: StatementKind) -> u64
    ensures { result ≡ kind_bit k }
{
    1 << (k as u64)
}

// The kinds that an edge certainly enters from this one, over one relation.
fn sure_of(k: StatementKind) -> u64
    ensures { result ≡ sure_of k }
{
    match k {
        StatementKind::Is => READERS | WRITERS,
        StatementKind::Ks | StatementKind::Ku | StatementKind::Kl => DELETES,
        StatementKind::Ps | StatementKind::Pu => EXISTENCE,
        StatementKind::Kd => TESTERS,
        StatementKind::Pd => TESTERS | EXISTENCE,
    }
}

// The words of a row as one that is left.
#[tactic(auto, unfolding(crate::specs::PairWords::left_of))]
pub fn left_words(p: Row) -> Left
    ensures { result ≡ left_of p }
{
    let bit = kind_bit(p.kind);
    let sure = sure_of(p.kind);
    let updates = among(UPDATES, bit, p.writes);
    let phantoms = among(TESTERS, bit, p.tests);
    Left {
        sure,
        writes: updates | among(READERS, bit, p.reads) | phantoms,
        updates,
        phantom: among(TESTERS, bit, EXISTENCE),
        phantoms,
        select: among(KEY_SELECT, bit, DELETES),
        selected: among(SELECTS, bit, p.reads),
        keys: p.keys,
    }
}

// The words of a row as one that is entered.
#[tactic(auto, unfolding(crate::specs::PairWords::entered_of))]
pub fn entered_words(q: Row) -> Entered
    ensures { result ≡ entered_of q }
{
    let bit = kind_bit(q.kind);
    Entered {
        bit,
        writes: among(WRITERS, bit, q.writes),
        looks: among(READERS, bit, q.reads) | among(TESTERS, bit, q.tests),
        far: q.keys / FAR,
    }
}
