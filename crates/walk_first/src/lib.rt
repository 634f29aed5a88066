// The first dangerous closed walk among at most 64 nodes (Req 01): the fewest steps, then the least list of steps. `table` has the places of the
// nodes, `forwards` and `backs` the words of the edge that stands for all of its flow between two nodes (edge_word), `nodes` the nodes that count.
//
// How many steps it has is told by the shortest way back from where a dangerous pair leads (walk_return), where it starts by which nodes are on such
// a walk (walk_ways, walk_lead). Then the least step that can be completed is taken again and again (walk_ways, walk_wide, walk_need, walk_limit,
// walk_step).
#![tactic(auto)]

ghost use Rattle.std.specs.Prelude.{cond, ◌≡◌, ℕ, ◌+◌, ◌*◌, ◌≤◌, ◌<◌, min, length};
ghost use Rattle.lent_words.specs.Lent.{Lent};
ghost use Rattle.pick_laws.specs.Demands.{going_after};
ghost use Rattle.pick_laws.specs.declared.Going.{Going};
ghost use Rattle.walk_nodes.specs.Nodes.{rows_in};
ghost use Rattle.walk_reach.specs.Layers.{joined_rows};
ghost use Rattle.walk_lead.specs.Leads.{lead_rows};
ghost use Rattle.walk_first.specs.FirstSteps.{opens_at, sought, Unasked, steps_from, chosen_word, chosen_words, put_words, put_steps};
ghost use Rattle.walk_first.specs.FirstSteps.{refusal_in, steps_in, TakenAs, SearchedFor, WalkAnswered};

use edge_word::{NODES, PAIRS, PLACES};
use pick_laws::{Going, STEP_WORDS};
use refusal::Fault;
use step_word::step_of;
use walk_lead::{lead_rows, wrap_start};
use walk_limit::limits_in;
use walk_need::needs_in;
use walk_nodes::rows_in;
use walk_reach::{fill_words, joined_rows};
use walk_return::shortest_return;
use walk_step::{least_step, loose_at};
use walk_ways::{first_start, openings, ways_to};
use walk_wide::widest_table;
use word_list::{has_bit, word_at};

// The words of the longest walk that is shown: 65 steps.
pub const WALK_WORDS: usize = 260;

// The word of all nodes.
pub const EVERY_NODE: u64 = 18446744073709551615;

// Writes the four words of step k: they stand from word k * 4 on.
fn put_words(out: &mut [u64], k: usize, a: u64, b: u64, c: u64, d: u64)
    requires { (k * 4 + 4 ≤ length out.old) × (k < 65) }
    ensures { out.new ≡ put_words out.old k a b c d }
{
    let at = k * STEP_WORDS;
    out[at] = a;
    out[at + 1] = b;
    out[at + 2] = c;
    out[at + 3] = d;
}

// A flow as the area has it: 1 for back.
fn flow_word(back: bool) -> u64
    ensures { result ≡ cond back 1 0 }
{
    u64::from(back)
}

// How far a step out of x opens, by the place left and the place entered.
#[tactic(auto, unfolding(crate::specs::FirstSteps::opens_at))]
fn opens_at(table: &[u64], x: u64, leaves: u64, enters: u64) -> u64
    ensures { result ≡ opens_at table.now x leaves enters }
{
    if loose_at(table, x, leaves) {
        PLACES
    } else {
        enters
    }
}

// The phase after a step.
#[tactic(auto, unfolding(pick_laws::specs::Demands::going_after))]
fn going_after(going: Going, back: bool, opens: u64, leaves: u64) -> Going
    ensures { result ≡ going_after going back opens leaves }
{
    match going {
        Going::Starting if back => Going::Ending(leaves),
        Going::Opening(_) if back => Going::Closing,
        Going::Starting | Going::Opening(_) => Going::Opening(opens),
        Going::Closing | Going::Ending(_) => going,
    }
}

// What is worked out before the first step is taken, with the tables that it is worked out from: which nodes end the walk and which still open it, by
// the number of steps left; how far the last steps can open; the node where the walk starts, and the word of the nodes that count.
#[derive(Clone, Copy)]
struct Sought<'a> {
    table: &'a [u64],
    backs: &'a [u64],
    ways: &'a [u64],
    opened: &'a [u64],
    wide: &'a [u64],
    start: usize,
    nodes: u64,
}

// How far the writing of the walk has come: the node that is left next, and the phase.
#[derive(Clone, Copy)]
struct Spot {
    node: usize,
    going: Going,
}

// Takes the least step from a spot that counts, where r steps are left after it, and writes it as step k. What is asked of a step into each node is
// written into `needs` and `limits`, which have words for the nodes that can be entered.
fn take_step(
    s: &Sought,
    r: usize,
    from: Spot,
    k: usize,
    needs: &mut [u64],
    limits: &mut [u64],
    out: &mut [u64],
) -> Spot
    requires { (k * 4 + 4 ≤ length out.old) × (k < 65) × (length limits.old ≡ length needs.old)
        × Unasked s.now.backs.now (sought s.now) r from.going (length needs.old) }
    ensures taken_as { TakenAs s.now.table.now s.now.backs.now (sought s.now) r from.going from.node k out.old out.new
        result.node result.going }
    ensures lent { Lent needs.old needs.new × Lent limits.old limits.new }
{
    needs_in(
        s.backs, s.ways, s.opened, s.wide, s.start, s.nodes, r, from.going, needs,
    );
    limits_in(s.ways, s.wide, s.nodes, r, from.going, limits);
    let x = from.node as u64;
    let word = least_step(s.table, x, needs, limits);
    let t = step_of(word);
    put_words(out, k, x, t.leaves, t.enters, flow_word(t.back));
    let opens = opens_at(s.table, x, t.leaves, t.enters);
    let next = going_after(from.going, t.back, opens, t.leaves);
    Spot {
        node: t.into,
        going: next,
    }
}

// Writes the walk of so many steps.
fn put_walk(s: &Sought, steps: usize, needs: &mut [u64], limits: &mut [u64], out: &mut [u64])
    requires { (steps ≤ 65) × (260 ≤ length out.old) × (length limits.old ≡ length needs.old)
        × ((r : ℕ) → r < steps → (going : Going) → Unasked s.now.backs.now (sought s.now) r going (length needs.old)) }
    ensures { out.new
        ≡ put_steps out.old 0 (steps_from s.now.table.now s.now.backs.now (sought s.now) steps Going.Starting s.now.start) }
{
    let mut spot = Spot {
        node: s.start,
        going: Going::Starting,
    };
    for k in 0..steps {
        spot = take_step(s, steps - 1 - k, spot, k, needs, limits, out);
    }
}

// How many nodes a step can enter: those with a row, and the node at which the walk ends; 64 at most.
fn nodes_asked(rows: &[u64], backs: &[u64], s: usize) -> usize
    ensures { (min (length rows.now) 64 ≤ result) × (rows_in backs.now ≤ result) × (min (s + 1) 64 ≤ result) × (result ≤ 64) }
{
    let n = rows.len().min(NODES).max(rows_in(backs));
    n.max(s.min(NODES - 1) + 1)
}

// Searches tables that have the edges between nodes of the word alone; `rows` has for each node the nodes to which a forward edge goes from it,
// `leads` those to which a dangerous pair leads.
fn search_rows(
    table: &[u64],
    forwards: &[u64],
    backs: &[u64],
    rows: &[u64],
    leads: &[u64],
    nodes: u64,
    wide: &mut [u64; PAIRS],
    out: &mut [u64],
) -> Option<usize>
    requires { (260 ≤ length out.old) × (rows.now ≡ joined_rows forwards.now) × (leads.now ≡ lead_rows forwards.now backs.now) }
    ensures searched { SearchedFor table.now forwards.now backs.now nodes out.old result out.new }
    ensures lent { Lent wide.old wide.new }
{
    let d = shortest_return(rows, leads);
    if NODES <= d {
        return None;
    }
    let steps = d + 2;
    let later = first_start(rows, leads, steps);
    let start = wrap_start(forwards, backs, rows, d, later);
    let ways = ways_to(rows, start, steps);
    let opened = openings(rows, leads, &ways, steps);
    widest_table(forwards, rows, start, d + 1, wide);
    let n = nodes_asked(rows, backs, start);
    let mut needs = [0u64; NODES];
    let mut limits = [0u64; NODES];
    let s = Sought {
        table,
        backs,
        ways: &ways,
        opened: &opened,
        wide,
        start,
        nodes,
    };
    put_walk(&s, steps, &mut needs[..n], &mut limits[..n], out);
    Some(steps)
}

// The same with the rows worked out, as many as the table of forward edges has.
fn search(
    table: &[u64],
    forwards: &[u64],
    backs: &[u64],
    nodes: u64,
    wide: &mut [u64; PAIRS],
    out: &mut [u64],
) -> Option<usize>
    requires { 260 ≤ length out.old }
    ensures searched { SearchedFor table.now forwards.now backs.now nodes out.old result out.new }
    ensures lent { Lent wide.old wide.new }
{
    let n = rows_in(forwards);
    let rows = joined_rows(forwards);
    let leads = lead_rows(forwards, backs);
    search_rows(
        table,
        forwards,
        backs,
        &rows[..n],
        &leads[..n],
        nodes,
        wide,
        out,
    )
}

// The word of the edge for a pair of nodes, where both are among the nodes; past the end of the table there is none.
#[tactic(auto, unfolding(crate::specs::FirstSteps::chosen_word))]
fn chosen_word(table: &[u64], nodes: u64, x: usize) -> u64
    requires { x < 4096 }
    ensures { result ≡ chosen_word table.now nodes x }
{
    if has_bit(nodes, (x / NODES) as u64) && has_bit(nodes, (x % NODES) as u64) {
        word_at(table, x)
    } else {
        0
    }
}

// The words of the edges between nodes of the word.
fn chosen_words(table: &[u64], nodes: u64) -> [u64; PAIRS]
    ensures { result ≡ chosen_words table.now nodes }
{
    let mut words = [0u64; PAIRS];
    fill_words(&mut words, PAIRS, |x| chosen_word(table, nodes, x));
    words
}

// Shows the first dangerous closed walk of the tables among the nodes of the word, four words to a step, in an area with room for 65 steps. A table
// need only be as long as the rows of its nodes: words past its end count as 0. `wide` is lent to work in.
pub fn find_walk(
    table: &[u64],
    forwards: &[u64],
    backs: &[u64],
    nodes: u64,
    wide: &mut [u64; PAIRS],
    out: &mut [u64],
) -> Result<Option<usize>, Fault>
    ensures walk_answered { WalkAnswered table.now forwards.now backs.now nodes out.old (refusal_in result) (steps_in result)
        out.new }
    ensures lent { Lent wide.old wide.new }
{
    if out.len() < WALK_WORDS {
        return Err(Fault::Area);
    }
    if nodes == EVERY_NODE {
        return Ok(search(table, forwards, backs, nodes, wide, out));
    }
    let f = chosen_words(forwards, nodes);
    let b = chosen_words(backs, nodes);
    Ok(search(table, &f, &b, nodes, wide, out))
}
