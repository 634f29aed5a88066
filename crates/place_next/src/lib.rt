// Chains of the rows of a table of places by relation: who goes along a chain hardly ever meets rows of two relations.
#![tactic(auto)]

ghost use Rattle.place_next.specs.Chains.{Chained};

use place_fetch::row_count;
use place_row::{RELATION, ROW_WORDS};

// How many chains there are: a row is on the one of its relation's number modulo this.
pub const CHAINS: usize = 64;

// How many numbers a u16 has; a row's number is far below.
const HALF_WORDS: usize = 65536;

// For each row that has a word in `next` the next row on its chain is put there, and for each chain its first row is told; where there is none, the
// number of rows is.
// Rows are taken from the last to the first, so that each finds the next on its chain as the chain's first so far.
pub fn chain_rows(table: &[u64], next: &mut [u64]) -> [u16; CHAINS]
    ensures { Chained table.now next.old result next.new }
{
    let n = row_count(table);
    let mut heads = [(n % HALF_WORDS) as u16; CHAINS];
    for j in (0..n).rev() {
        let c = (table[j * ROW_WORDS + RELATION] % 64) as usize;
        if j < next.len() {
            next[j] = heads[c] as u64;
        }
        heads[c] = (j % HALF_WORDS) as u16;
    }
    heads
}
