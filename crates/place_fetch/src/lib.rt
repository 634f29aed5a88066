// Rows fetched from a table of places: eight words to a row.
#![tactic(auto)]

ghost use Rattle.std.specs.Prelude.{◌≡◌, ◌+◌, ◌*◌, ◌<◌, get_or};
ghost use Rattle.place_row.specs.RowTable.{row_at, row_count};

use edge_kinds::kind_of;
use place_row::{KEYS, KIND, NODE, PLACE, READS, RELATION, ROW_WORDS, ROWS, Row, TESTS, WRITES};

// How many rows a table has. Rows past the 512th are not looked at: no workload has more.
pub fn row_count(table: &[u64]) -> usize
    ensures { result ≡ row_count table.now }
{
    (table.len() / ROW_WORDS).min(ROWS)
}

// The row that eight words tell. Who knows that a row is whole takes its words as a chunk of the table, and no word is looked up past a test.
pub fn row_of(words: &[u64; ROW_WORDS]) -> Row
    ensures { result ≡ row_at words.now 0 }
{
    Row {
        node: words[NODE],
        place: words[PLACE],
        kind: kind_of(words[KIND]),
        relation: words[RELATION],
        reads: words[READS],
        writes: words[WRITES],
        tests: words[TESTS],
        keys: words[KEYS],
    }
}

// Word k of row i; past the table's end, 0. It is no `get`: for a row far past the end i * 8 + k does not fit a word.
fn row_word(table: &[u64], i: usize, k: usize) -> u64
    requires { k < 8 }
    ensures { result ≡ get_or table.now (i * 8 + k) 0 }
{
    let n = table.len();
    if n / ROW_WORDS < i {
        return 0;
    }
    let b = i * ROW_WORDS;
    if k < n - b {
        return table[b + k];
    }
    0
}

// Row number i; the words past the table's end are 0.
pub fn row_at(table: &[u64], i: usize) -> Row
    ensures { result ≡ row_at table.now i }
{
    let (rows, _) = table.as_chunks::<ROW_WORDS>();
    if i < rows.len() {
        return row_of(&rows[i]);
    }
    Row {
        node: row_word(table, i, NODE),
        place: row_word(table, i, PLACE),
        kind: kind_of(row_word(table, i, KIND)),
        relation: row_word(table, i, RELATION),
        reads: row_word(table, i, READS),
        writes: row_word(table, i, WRITES),
        tests: row_word(table, i, TESTS),
        keys: row_word(table, i, KEYS),
    }
}
