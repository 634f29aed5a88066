// The verdict on a workload value and on a text: robust or danger with its counts, and the first dangerous walk in the lent area; or a refusal.
#![tactic(auto)]

ghost use Rattle.std.specs.Prelude.{◌≡◌, ◌*◌, ◌≤◌, length, take};
ghost use Rattle.spec_text.specs.Reading.{read};
ghost use Rattle.lent_words.specs.Lent.{Lent};
ghost use Rattle.refusal.specs.Told.{told as said};
ghost use Rattle.verdict_told.specs.Told.{told};
ghost use Rattle.verdict_of.specs.Verdict.{Judged};
ghost use Rattle.verdict_of.specs.TextVerdict.{on_text, TextJudged, RowsLeft};
ghost use Rattle.verdict_of.specs.Steps.{RowsJudged};

use edge_word::{NODES, PAIRS};
use place_row::{ROWS, TABLE_WORDS};
use refusal::{Fault, Refusal};
use spec_text::Workload;
use value_tables::LINE_TABLE;
use verdict_told::{Verdict, judged};

// The verdict by the rows of all places of a workload with so many programs and nodes. The words for the edges between nodes are lent, 64 to each
// node, and so are words to work in.
fn judge_rows(
    rows: &[u64],
    programs: u64,
    nodes: u64,
    next: &mut [u64; ROWS],
    work: &mut [u64; TABLE_WORDS],
    forwards: &mut [u64],
    backs: &mut [u64],
    area: &mut [u64],
) -> Result<Verdict, Fault>
    requires { (length forwards.old ≡ nodes * 64) × (length backs.old ≡ nodes * 64) }
    ensures rows_judged { RowsJudged rows.now programs nodes area.old (told result) area.new }
    ensures lent { Lent next.old next.new × Lent work.old work.new
        × Lent forwards.old forwards.new × Lent backs.old backs.new }
{
    let c = walk_pick::pick_edges(rows, next, work, forwards, backs);
    let found = walk_first::find_walk(rows, forwards, backs, walk_first::EVERY_NODE, work, area);
    judged(programs, nodes, c.edges as u64, c.back as u64, found)
}

// The same with the rows in the first words of a table, and words for 64 nodes lent.
fn judge_table(
    table: &[u64],
    words: usize,
    programs: u64,
    nodes: u64,
    next: &mut [u64; ROWS],
    work: &mut [u64; TABLE_WORDS],
    forwards: &mut [u64],
    backs: &mut [u64],
    area: &mut [u64],
) -> Result<Verdict, Fault>
    requires { (words ≤ length table.now) × (nodes ≤ 64) × (length forwards.old ≡ 4096) × (length backs.old ≡ 4096) }
    ensures rows_judged { RowsJudged (take words table.now) programs nodes area.old (told result) area.new }
    ensures lent { Lent next.old next.new × Lent work.old work.new
        × Lent forwards.old forwards.new × Lent backs.old backs.new }
{
    let m = nodes as usize * NODES;
    judge_rows(
        &table[..words],
        programs,
        nodes,
        next,
        work,
        &mut forwards[..m],
        &mut backs[..m],
        area,
    )
}

// The verdict on any workload value. The first dangerous walk is shown at the front of the area, four words to a step: node, place left,
// place entered, and 0 for forward or 1 for back.
pub fn verdict_of(w: Workload, area: &mut [u64]) -> Result<Verdict, Fault>
    ensures { Judged w area.old (told result) area.new }
{
    let mut table = [0u64; TABLE_WORDS];
    let rows = place_table::fill_rows(w, &mut table)?;
    let n = rows.places as usize * place_row::ROW_WORDS;
    let mut next = [0u64; ROWS];
    let mut work = [0u64; TABLE_WORDS];
    let mut forwards = [0u64; PAIRS];
    let mut backs = [0u64; PAIRS];
    judge_table(
        &table[..n],
        n,
        rows.programs,
        rows.nodes,
        &mut next,
        &mut work,
        &mut forwards,
        &mut backs,
        area,
    )
}

// A refusal of the value has line 0.
fn on_text(v: Result<Verdict, Fault>) -> Result<Verdict, Refusal>
    ensures { said result ≡ on_text v }
{
    v.map_err(|fault| fault.at(0))
}

// The verdict on any text, with the first dangerous walk at the front of the area. The rows of its places stand in `rows`; the other words are lent
// to work in: what they hold afterwards is free. That a text gives the value is known from reading it, so it is not decided again (S21). The words
// are lent one by one, as callers in C lend them.
pub fn text_verdict(
    text: &[u8],
    state: &mut [u64; line_state::WORDS],
    lines: &mut [u64; LINE_TABLE],
    places: &mut [u64; ROWS],
    rows: &mut [u64; TABLE_WORDS],
    work: &mut [u64; TABLE_WORDS],
    forwards: &mut [u64; PAIRS],
    backs: &mut [u64; PAIRS],
    area: &mut [u64],
) -> Result<Verdict, Refusal>
    ensures text_judged { TextJudged (read text.now) area.old (said result) area.new }
    ensures lent { Lent state.old state.new × Lent lines.old lines.new
        × Lent places.old places.new × RowsLeft (read text.now) rows.old rows.new
        × Lent work.old work.new × Lent forwards.old forwards.new
        × Lent backs.old backs.new }
{
    let t = place_text::text_rows(text, state, lines, places, rows)?;
    let v = judge_table(
        rows, t.words, t.programs, t.nodes, places, work, forwards, backs, area,
    );
    on_text(v)
}
