// The letter of the edge between two rows of a table of places, and whether one stands, by a code of `kind_table` (Req 04): what it says is
// impossible or certain is decided without a look at the sets. Any code will do; where it is that of the rows' kinds, what is told is so
// (`forward-told`, `back-told` and `letter-told` of specs/LetterLaws).
#![tactic(auto)]

ghost use Rattle.std.specs.Prelude.{◌&&◌, ◌||◌, ◌≡◌};
ghost use Rattle.spec_base.specs.Basic.{meets};
ghost use Rattle.spec_graph.specs.Graph as G;
ghost use Rattle.edge_test.specs.Letters.{first_by, told_between, forward_in, back_in, letter_in};

use edge_kinds::{SELECT, kind_has};
use kind_table::{A, A_HANGS, B, B_HANGS, C, C_HANGS, CERTAIN, D, D_HANGS, E, E_HANGS};
use place_row::{FAR, Row};

// Whether a letter holds: by its bits in a code, and where it hangs on its two sets by whether they meet.
fn letter_holds(code: u32, certain: u32, hangs: u32, a: u64, b: u64) -> bool
    ensures { result ≡ meets code certain || meets code hangs && meets a b }
{
    if code & certain != 0 {
        return true;
    }
    if code & hangs != 0 {
        return a & b != 0;
    }
    false
}

// The byte of the first letter that holds between two rows, if one does. Between many kinds no letter is possible. Letters are bytes, as in Edge,
// which callers in C own.
fn first_letter(code: u32, p: Row, q: Row) -> Option<u8>
    ensures { result ≡ first_by (told_between code p q) }
{
    if letter_holds(code, A, A_HANGS, p.writes, q.writes) {
        return Some(b'A');
    }
    if code == 0 {
        return None;
    }
    if letter_holds(code, B, B_HANGS, p.writes, q.reads) {
        return Some(b'B');
    }
    if letter_holds(code, C, C_HANGS, p.writes, q.tests) {
        return Some(b'C');
    }
    if letter_holds(code, D, D_HANGS, p.reads, q.writes) {
        return Some(b'D');
    }
    if letter_holds(code, E, E_HANGS, p.tests, q.writes) {
        return Some(b'E');
    }
    None
}

// The letter of the forward edge between two rows, if one stands: the first that holds. Most pairs of rows differ in their relation.
pub fn forward_letter(code: u32, p: Row, q: Row) -> Option<u8>
    ensures { result ≡ letter_in G.Flow.forward code p q }
{
    if p.relation != q.relation {
        return None;
    }
    first_letter(code, p, q)
}

// The letter of the back edge between two rows, if one stands: E whatever the keys say, else D for a select that no key shields. The first row's keys
// are asked as those of the place left, the second's as those of the place entered.
pub fn back_letter(code: u32, p: Row, q: Row) -> Option<u8>
    ensures { result ≡ letter_in G.Flow.back code p q }
{
    if p.relation != q.relation {
        return None;
    }
    let free = p.keys & q.keys / FAR == 0;
    let phantom = letter_holds(code, E, E_HANGS, p.tests, q.writes);
    // E stands whatever the keys say.
    if phantom {
        return Some(b'E');
    }
    let k = p.kind;
    if kind_has(k, SELECT) {
        if letter_holds(code, D, D_HANGS, p.reads, q.writes) {
            if free {
                return Some(b'D');
            }
        }
    }
    None
}

// Whether a forward edge stands: the rows are of one relation and some letter holds. Where one is certain, no set is asked.
pub fn forward_stands(code: u32, p: Row, q: Row) -> bool
    ensures { result ≡ forward_in code p q }
{
    if p.relation != q.relation {
        return false;
    }
    if code & CERTAIN != 0 {
        return true;
    }
    first_letter(code, p, q).is_some()
}

// Whether a back edge stands: E holds, or D for a select that no key shields.
pub fn back_stands(code: u32, p: Row, q: Row) -> bool
    ensures { result ≡ back_in code p q }
{
    back_letter(code, p, q).is_some()
}
