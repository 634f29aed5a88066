// Rows linked by relation: the next row and the first on a row's chain stand in the word of its kind.
#![tactic(auto)]

ghost use Rattle.std.specs.Prelude.{◌≡◌, length};
ghost use Rattle.lent_words.specs.Lent.{Lent};
ghost use Rattle.place_link.specs.Links.{LinkedAs, LinkedTold};
ghost use Rattle.place_link.specs.LinkLaws.{Linkable, link_of, Chains, LinksTold};

use place_fetch::row_count;
use place_next::{CHAINS, chain_rows};
use place_row::{KIND, RELATION, ROW_WORDS, ROWS};

// So few rows are not linked: looking at each of them is as cheap.
const FEW: usize = 8;

// In the word of a row's kind only the kind's number counts modulo 8, and above it there is room: the next row on the row's chain is told by
// the part from NEXT on, below NEXTS, and the first row of its chain by the part from FIRST on.
pub const NEXT: u64 = 8;

pub const NEXTS: u64 = 1024;

pub const FIRST: u64 = 8192;

// The word of row j's kind with the next row and the first on its chain.
fn row_link(table: &[u64], next: &[u64], heads: &[u16; CHAINS], j: usize) -> u64
    requires { Linkable table.now next.now heads.now j }
    ensures { result ≡ link_of table.now next.now heads.now j }
{
    let b = j * ROW_WORDS;
    let c = (table[b + RELATION] % 64) as usize;
    table[b + KIND] % NEXT + next[j] * NEXT + heads[c] as u64 * FIRST
}

// Puts into the word of each row's kind the next row and the first on its chain; the rows stay what they are. Words are lent for the chains: where
// they are fewer than the rows, and where there are few rows, the table stays as it was.
pub fn link_rows(table: &mut [u64], next: &mut [u64])
    ensures linked_as { LinkedAs table.old (length next.old) table.new }
    ensures lent { Lent next.old next.new }
{
    let n = row_count(table);
    if n < FEW {
        return;
    }
    if next.len() < n {
        return;
    }
    let heads = chain_rows(table, next);
    for j in 0..n {
        let word = row_link(table, next, &heads, j);
        table[j * ROW_WORDS + KIND] = word;
    }
}

// Whether linking would leave each of n rows as it is.
fn links_held(table: &[u64], next: &[u64], heads: &[u16; CHAINS], n: usize) -> bool
    requires { Chains table.now next.now heads.now n }
    ensures { LinksTold table.now result }
{
    for j in 0..n {
        let word = row_link(table, next, heads, j);
        if table[j * ROW_WORDS + KIND] != word {
            return false;
        }
    }
    true
}

// Whether the rows of a table are linked, and not few.
pub fn rows_linked(table: &[u64]) -> bool
    ensures { LinkedTold table.now result }
{
    let n = row_count(table);
    if n < FEW {
        return false;
    }
    let mut next = [0u64; ROWS];
    let heads = chain_rows(table, &mut next);
    links_held(table, &next, &heads, n)
}
