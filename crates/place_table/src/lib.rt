// The table of the places of a workload: one row of eight words for each place of each node.
#![tactic(auto)]

ghost use Rattle.std.specs.Prelude.{◌≡◌, ◌+◌, ◌*◌, ◌≤◌, length, Ok};
ghost use Rattle.word_rows.specs.Put.{put_at};
ghost use Rattle.place_table.specs.RowWords.{row_words, node_rows, total_of, all_rows, FilledBy};
ghost use Rattle.place_table.specs.Rows.{RowsSettled};
ghost use Rattle.place_table.specs.LineRows.{LinesFilled};

use place_keys::keys_from;
use place_links::{Links, links_from};
use place_programs::programs_in;
use place_row::{ROW_WORDS, ROWS, TABLE_WORDS};
use refusal::Fault;
use spec_text::Workload;
use unfold::{NO_UNFOLDING, Unfolding, unfold_into};
use unfold_laws::{UNFOLDINGS, WORD_LINES};
use value_given::is_given;
use value_lines::line_table;
use value_tables::{ID, LINE_WORDS, READS, REL, TESTS, WRITES};
use word_list::word_at;
use word_rows::put_row;

// How many programs, nodes and places the rows that are filled are of.
#[derive(Clone, Copy, Debug, PartialEq, Eq)]
pub struct Rows {
    pub programs: u64,
    pub nodes: u64,
    pub places: u64,
}

// What is told of the nodes: each one's unfolding, and the words of all places, one node after the other.
#[derive(Clone, Copy)]
struct Nodes<'a> {
    unfoldings: &'a [Unfolding],
    words: &'a [u64],
}

// A node: the lines, where the links of its program begin, and its number.
#[derive(Clone, Copy)]
struct Node<'a> {
    lines: &'a [u64],
    links: Links,
    number: u64,
}

// The row of a node's place from its word, into the table at a place.
#[tactic(auto, using(crate::proofs::PutRowLaws::row_words_lem, word_rows::specs::Put::row_put_lem))]
fn put_place(node: Node, place: u64, word: u64, table: &mut [u64], at: usize)
    requires { at + 8 ≤ length table.old }
    ensures { table.new ≡ put_at table.old at (row_words node.entry.lines.now node.entry.links node.entry.number place word) }
{
    let lines = node.lines;
    let l = (word % WORD_LINES) as usize * LINE_WORDS;
    let keys = keys_from(
        lines,
        node.links.first,
        word_at(lines, l + ID),
        word / WORD_LINES,
        node.links.marks,
    );
    put_row(
        table,
        at,
        node.number,
        place,
        word_at(lines, l),
        word_at(lines, l + REL),
        word_at(lines, l + READS),
        word_at(lines, l + WRITES),
        word_at(lines, l + TESTS),
        keys,
    );
}

// The rows of a node, whose places' words stand from `start` on, into the table after those of the nodes before.
#[tactic(auto, using(crate::proofs::PutRowLaws::rows_room, crate::proofs::PutRowLaws::rows_next))]
fn put_places(node: Node, words: &[u64], start: usize, n: usize, table: &mut [u64]) -> usize
    requires { (start + n) * 8 ≤ length table.old }
    ensures { (table.new ≡ put_at table.old (start * 8)
        (node_rows node.entry.lines.now node.entry.links node.entry.number words.now start n)) × (result ≡ start + n) }
{
    for i in 0..n {
        let word = word_at(words, start + i);
        put_place(node, i as u64, word, table, (start + i) * ROW_WORDS);
    }
    start + n
}

// The rows of all nodes from the table's start on; answers how many.
#[tactic(auto, using(crate::proofs::PutRowLaws::total_next, crate::proofs::PutRowLaws::all_room, crate::proofs::PutRowLaws::all_next))]
fn put_nodes(lines: &[u64], firsts: &[u64], nodes: Nodes, table: &mut [u64]) -> usize
    requires { total_of nodes.unfoldings.now (length nodes.unfoldings.now) * 8 ≤ length table.old }
    ensures { (table.new ≡ put_at table.old 0 (all_rows lines.now firsts.now nodes.entry.unfoldings.now
        nodes.entry.words.now (length nodes.entry.unfoldings.now)))
        × (result ≡ total_of nodes.entry.unfoldings.now (length nodes.entry.unfoldings.now)) }
{
    let mut at: usize = 0;
    for (j, own) in nodes.unfoldings.iter().enumerate() {
        let first = word_at(firsts, own.program as usize);
        let node = Node {
            lines,
            links: links_from(lines, first as usize),
            number: j as u64,
        };
        at = put_places(node, nodes.words, at, own.length as usize, table);
    }
    at
}

// The table of lines whose unfoldings are told, where it has room.
fn fill_table(lines: &[u64], nodes: Nodes, table: &mut [u64]) -> Rows
    requires { total_of nodes.unfoldings.now (length nodes.unfoldings.now) * 8 ≤ length table.old }
    ensures { FilledBy lines.now nodes.entry.unfoldings.now nodes.entry.words.now table.old (Ok result) table.new }
{
    let b = programs_in(lines);
    let places = put_nodes(lines, &b.firsts, nodes, table);
    Rows {
        programs: b.programs as u64,
        nodes: nodes.unfoldings.len() as u64,
        places: places as u64,
    }
}

// The rows of all places of the lines in a table of lines (value_tables) into the lent table, eight words a place; a refusal leaves the table as it
// is. A table has room for all lines that are not refused: it cannot be too short. The words of the places are put into `places`.
pub fn fill_lines(
    lines: &[u64],
    places: &mut [u64; ROWS],
    table: &mut [u64; TABLE_WORDS],
) -> Result<Rows, Fault>
    ensures { LinesFilled lines.now places.old table.old result places.new table.new }
{
    let mut unfoldings = [NO_UNFOLDING; UNFOLDINGS];
    let count = unfold_into(lines, &mut unfoldings, places)?;
    let nodes = Nodes {
        unfoldings: &unfoldings[..count as usize],
        words: places,
    };
    Ok(fill_table(lines, nodes, table))
}

// The rows of all places of a workload value into the lent table; a refusal leaves the table as it is.
pub fn fill_rows(w: Workload, table: &mut [u64; TABLE_WORDS]) -> Result<Rows, Fault>
    ensures { RowsSettled w table.old result table.new }
{
    if !is_given(w) {
        return Err(Fault::NotGiven);
    }
    let n = w.count * LINE_WORDS;
    let lines = line_table(w);
    let mut places = [0u64; ROWS];
    fill_lines(&lines[..n], &mut places, table)
}
