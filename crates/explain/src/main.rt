// Tells the facts behind a report: of a refused text what was taken before the fault, of the others the programs, unfoldings and edges, and for
// danger the first walk step by step. It reads a text on standard input and prints a line for each fact; `./judge --explain` puts them into words and
// `./judge --picture` into a drawing. What is told is computed by functions with their own promises; this program asks them and prints.
#![tactic(auto)]

use console::INPUT_BYTES;
use edge_find::{edge_from, shared_by};
use edge_record::Edge;
use pick_laws::STEP_WORDS;
use place_fetch::row_at;
use place_row::{ROW_SLOTS, ROW_WORDS, ROWS, SLOTS, TABLE_WORDS};
use spec_text::Workload;
use std::io::{Stdout, Write};
use stdin::Input;
use unfold::{NO_UNFOLDING, Unfolding};
use unfold_choice::{Choices, TAKEN};
use unfold_laws::{UNFOLDINGS, WORD_LINES};
use unfold_program::{ProgramUnfoldings, program_unfoldings};
use verdict_told::{Totals, Verdict};
use walk_first::WALK_WORDS;
use word_list::{has_bit, word_at};

// The number in the text of the first line of a value: the names line is the text's first.
const FIRST_LINE: u64 = 2;

// More than any text has lines; so much is known of each number of a line here.
const MOST_LINES: u64 = 65536;

// ---- what all facts print

// Hands bytes to standard output. Each program has its own: std's contracts tie no bytes to a stream, so a public function could promise nothing.
fn print(mut out: Stdout, bytes: &[u8]) {
    let _ = out.write_all(bytes);
}

// Numbers in decimal, each after a space.
fn print_numbers(mut out: Stdout, numbers: &[u64]) {
    for n in numbers {
        let _ = write!(out, " {n}");
    }
}

// A fact: its word and its numbers.
fn tell(out: Stdout, word: &[u8], numbers: &[u64]) {
    print(out, word);
    print_numbers(out, numbers);
    print(out, b"\n");
}

// The number in the text of a line of the value.
fn text_line(index: u64) -> u64 {
    index % MOST_LINES + FIRST_LINE
}

// ---- a refused text

fn tell_refused(out: Stdout, number: u8, line: u64) {
    tell(out, b"refused", &[number as u64, line]);
}

// How much of the text was taken before the fault.
fn tell_before(out: Stdout, text: &[u8]) {
    let b = text_before::before_fault(text);
    tell(
        out,
        b"before",
        &[
            b.lines,
            b.relations,
            b.keys,
            b.programs,
            b.statements,
            b.body,
            b.links,
            b.depth,
        ],
    );
}

// Of a workload that unfolds too far: what each program unfolds to. There are at most 16 programs.
fn tell_unfolds(out: Stdout, w: Workload) {
    for p in 0..16 {
        let Ok(Some(u)) = program_unfoldings(w, p) else {
            return;
        };
        tell(
            out,
            b"unfolds",
            &[p, text_line(u.line), u.count, u.statements],
        );
    }
}

// ---- programs and nodes

// The tables of a workload: the places of its nodes, the unfolding of each node, and the lines of all.
#[derive(Clone, Copy)]
struct Tables<'a> {
    table: &'a [u64],
    unfoldings: &'a [Unfolding],
    words: &'a [u64],
    nodes: u64,
}

// How many of the first nodes are of programs before one: programs go in order, so these are the nodes before its own. Cells past the last node are
// of no node, so that they may count.
fn nodes_before(unfoldings: &[Unfolding], program: u64) -> u64 {
    unfoldings
        .iter()
        .take_while(|u| u64::from(u.program) < program)
        .count() as u64
}

// A program: its line, its unfoldings and the statements in them, the edges that leave its nodes and the back edges among them.
fn tell_program(out: Stdout, w: Workload, t: Tables, p: u64) {
    let u = match program_unfoldings(w, p) {
        Ok(Some(u)) => u,
        _ => ProgramUnfoldings::default(),
    };
    let first = nodes_before(t.unfoldings, p);
    let next = nodes_before(t.unfoldings, p % 16 + 1);
    let c = edge_between::count_between(t.table, first, next, 0, UNFOLDINGS as u64);
    tell(
        out,
        b"program",
        &[
            p,
            text_line(u.line),
            u.count,
            u.statements,
            c.edges as u64,
            c.back as u64,
        ],
    );
}

fn tell_programs(out: Stdout, w: Workload, t: Tables, count: u64) {
    for p in 0..count {
        tell_program(out, w, t, p);
    }
}

// What a node chose: the line of each loop or branch with the turns or the arm.
fn tell_choices(out: Stdout, c: Choices) {
    for k in 0..c.count {
        let word = word_at(&c.words, k as usize);
        print_numbers(out, &[text_line(word / TAKEN), word % TAKEN]);
    }
}

// A node: its program, which unfolding of it, and what it chose.
fn tell_node(out: Stdout, w: Workload, node: u64) {
    print(out, b"node");
    match unfold_choice::choices_of(w, node) {
        Ok(Some(c)) => {
            print_numbers(out, &[node, c.program, c.number]);
            tell_choices(out, c);
        }
        _ => print_numbers(out, &[node, 0, 0]),
    }
    print(out, b"\n");
}

fn tell_nodes(out: Stdout, w: Workload, nodes: u64) {
    for m in 0..nodes {
        tell_node(out, w, m);
    }
}

impl Tables<'_> {
    // The unfolding of a node; of a number past the last, that of no node.
    fn unfolding(self, node: u64) -> Unfolding {
        self.unfoldings
            .get(node as usize)
            .copied()
            .unwrap_or(NO_UNFOLDING)
    }

    // The place's number among the places of all nodes, by where each node's start.
    fn row_of(self, node: u64, place: u64) -> usize {
        let rows = ROWS as u64;
        ((self.unfolding(node).start % rows + place % rows) % rows) as usize
    }

    // The line of the statement in a row.
    fn row_line(self, row: usize) -> u64 {
        text_line(word_at(self.words, row) % WORD_LINES)
    }
}

// A node's places: the line of each one's statement.
fn tell_places_of(out: Stdout, t: Tables, node: u64) {
    print(out, b"places");
    print_numbers(out, &[node]);
    for i in 0..t.unfolding(node).length {
        print_numbers(out, &[t.row_line(t.row_of(node, i))]);
    }
    print(out, b"\n");
}

fn tell_places(out: Stdout, t: Tables) {
    for m in 0..t.nodes {
        tell_places_of(out, t, m);
    }
}

// ---- edges between nodes

// The edges from one node to another, forward and back apart, if there is one.
fn tell_pair_of_nodes(out: Stdout, table: &[u64], m: u64, n: u64) {
    let last = UNFOLDINGS as u64;
    let c = edge_between::count_between(table, m, m % last + 1, n, n % last + 1);
    if c.edges == 0 {
        return;
    }
    tell(
        out,
        b"between",
        &[m, n, (c.edges - c.back) as u64, c.back as u64],
    );
}

fn tell_edges_from(out: Stdout, t: Tables, m: u64) {
    for n in 0..t.nodes {
        tell_pair_of_nodes(out, t.table, m, n);
    }
}

fn tell_edges(out: Stdout, t: Tables) {
    for m in 0..t.nodes {
        tell_edges_from(out, t, m);
    }
}

// ---- the walk

// A step of the walk: the node left, the place left, the node and place entered, and the flow, 0 for forward.
#[derive(Clone, Copy)]
struct Going {
    node: u64,
    leaves: u64,
    into: u64,
    enters: u64,
    flow: u64,
}

// A walk: the words of its steps, and how many steps they are.
#[derive(Clone, Copy)]
struct Walk<'a> {
    words: &'a [u64],
    steps: u64,
}

impl Walk<'_> {
    // The step after step k: after the last comes the first.
    fn next(self, k: u64) -> u64 {
        let next = k % WALK_WORDS as u64 + 1;
        if next < self.steps { next } else { 0 }
    }

    // Step k; the next step's node is entered, last to first.
    fn step(self, k: u64) -> Going {
        let at = k as usize % WALK_WORDS * STEP_WORDS;
        let next = self.next(k) as usize % WALK_WORDS * STEP_WORDS;
        Going {
            node: word_at(self.words, at),
            leaves: word_at(self.words, at + 1),
            into: word_at(self.words, next),
            enters: word_at(self.words, at + 2),
            flow: word_at(self.words, at + 3),
        }
    }
}

// How many edges stand before a slot: edges are found one after the other, each from after the slot of the one before. There are no more of them than
// slots.
fn edges_before(table: &[u64], slot: usize) -> u64 {
    let mut from: usize = 0;
    for number in 0..SLOTS {
        let step = edge_from(table, from);
        if slot <= step.slot {
            return number as u64;
        }
        from = step.slot % SLOTS + 1;
    }
    SLOTS as u64
}

// Whether an edge is that of a step.
fn is_edge_of(e: Edge, g: Going) -> bool {
    (e.node, e.leaves, e.into, e.enters) == (g.node, g.leaves, g.into, g.enters)
        && (e.flow == b'b') == (g.flow != 0)
}

// The attributes of a set in rising order.
fn print_attributes(out: Stdout, set: u64) {
    for k in 0..64 {
        if has_bit(set, k) {
            print_numbers(out, &[k]);
        }
    }
}

// An edge's flow, number and letter, how many attributes the letter's sets share, the lowest and all of them.
fn print_edge(out: Stdout, table: &[u64], e: Edge, number: u64, left: usize, entered: usize) {
    print(out, &[b' ', e.flow]);
    print_numbers(out, &[number]);
    print(out, &[b' ', e.letter]);
    print_numbers(out, &[e.sharing as u64, e.lowest as u64]);
    let p = row_at(table, left);
    let q = row_at(table, entered);
    print_attributes(out, shared_by(e.letter, p, q));
}

// The edge of a step, asked for by its number: it stands in the slot of the step's two places and flow.
fn print_edge_of(out: Stdout, w: Workload, table: &[u64], g: Going, left: usize, entered: usize) {
    let slot = left % ROWS * ROW_SLOTS + entered % ROWS * 2 + (g.flow % 2) as usize;
    let number = edges_before(table, slot);
    if let Ok(Some(e)) = edge_list::edge_number(w, number) {
        if is_edge_of(e, g) {
            print_edge(out, table, e, number, left, entered);
        }
    }
}

fn tell_step(out: Stdout, w: Workload, t: Tables, k: u64, g: Going) {
    let left = t.row_of(g.node, g.leaves);
    let entered = t.row_of(g.into, g.enters);
    print(out, b"step");
    print_numbers(
        out,
        &[
            k,
            g.node,
            g.leaves,
            t.row_line(left),
            g.into,
            g.enters,
            t.row_line(entered),
        ],
    );
    print_edge_of(out, w, t.table, g, left, entered);
    print(out, b"\n");
}

fn tell_steps(out: Stdout, w: Workload, t: Tables, walk: Walk) {
    for k in 0..walk.steps {
        tell_step(out, w, t, k, walk.step(k));
    }
}

// The dangerous pair that begins with a step: whether there is one, and if so, it is told.
fn tell_pair_at(out: Stdout, t: Tables, walk: Walk, k: u64) -> bool {
    let e = walk.step(k);
    let next = walk.next(k);
    let c = walk.step(next);
    let p = row_at(t.table, t.row_of(e.node, e.leaves));
    let r = walk_reason::pair_reasons(p.kind, e.enters, e.flow, c.leaves, c.flow);
    if r.dangerous {
        tell(
            out,
            b"pair",
            &[k, next, r.back as u64, r.earlier as u64, r.loose as u64],
        );
    }
    r.dangerous
}

// The first dangerous pair of the walk.
fn tell_pair(out: Stdout, t: Tables, walk: Walk) {
    for k in 0..walk.steps {
        if tell_pair_at(out, t, walk, k) {
            return;
        }
    }
}

// ---- from the text to the facts

// Everything that is told of a workload's table and unfoldings.
fn tell_all(out: Stdout, w: Workload, table: &[u64], programs: u64, walk: Walk) {
    let mut words = [0u64; ROWS];
    let Ok(told) = unfold::unfold_places(w, &mut words) else {
        // Never met: the rows of this value are filled, so its unfoldings are not refused either.
        return;
    };
    let tables = Tables {
        table,
        unfoldings: &told.unfoldings,
        words: &words,
        nodes: told.count,
    };
    tell_programs(out, w, tables, programs);
    tell_nodes(out, w, tables.nodes);
    tell_places(out, tables);
    tell_edges(out, tables);
    tell_steps(out, w, tables, walk);
    tell_pair(out, tables, walk);
}

fn tell_graph(out: Stdout, w: Workload, walk: Walk) {
    let mut table = [0u64; TABLE_WORDS];
    let filled = place_table::fill_rows(w, &mut table);
    match filled {
        Err(_) => {}
        Ok(rows) => {
            let n = (rows.places * ROW_WORDS as u64) as usize;
            tell_all(out, w, &table[..n], rows.programs, walk);
        }
    }
}

fn tell_verdict(out: Stdout, word: &[u8], c: Totals) {
    tell(out, word, &[c.programs, c.nodes, c.edges, c.back]);
}

fn tell_value(out: Stdout, w: Workload) {
    let mut words = [0u64; WALK_WORDS];
    let v = verdict_of::verdict_of(w, &mut words);
    match v {
        Ok(Verdict::Robust(c)) => {
            tell_verdict(out, b"verdict robust", c);
            let none = Walk {
                words: &words,
                steps: 0,
            };
            tell_graph(out, w, none);
        }
        Ok(Verdict::Danger(c, steps)) => {
            tell_verdict(out, b"verdict danger", c);
            let walk = Walk {
                words: &words,
                steps,
            };
            tell_graph(out, w, walk);
        }
        Err(fault) => {
            tell_refused(out, fault.number(), 0);
            tell_unfolds(out, w);
        }
    }
}

// The facts of a text; the last line says that they are all there.
fn tell_text(out: Stdout, text: &[u8]) {
    match text_read::read_text(text) {
        Ok(w) => tell_value(out, w),
        Err(r) => {
            tell_refused(out, r.fault.number(), r.line);
            tell_before(out, text);
        }
    }
    print(out, b"end\n");
}

fn tell_read(out: Stdout, area: &[u8], n: usize) {
    if n <= area.len() {
        tell_text(out, &area[..n]);
    }
}

fn main(rt: HostRuntime) {
    let mut area = [0u8; INPUT_BYTES];
    let read = stdin::read_input(rt.stdin(), &mut area);
    match read {
        Input::Ended(received) => tell_read(rt.stdout(), &area, received.count()),
        Input::Full(received) => tell_read(rt.stdout(), &area, received.count()),
        Input::Failed(_) => {
            let _ = rt.stderr().write_all(b"the input could not be read\n");
        }
    }
}
