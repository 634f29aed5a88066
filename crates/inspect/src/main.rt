// Shows what the parts make of workload texts: what is read, the unfoldings, the edges, the report, and what lent areas hold afterwards. Arguments
// are words and file names in order: `--read`, `--unfold`, `--edges`, `--report` and `--areas` say what is printed of the files after them; at
// `--input` standard input is answered, as the program `verdict` answers it.
#![tactic(auto)]

use check::same;
use console::{INPUT_BYTES, WORD_BYTES, argument, open_read, read_full};
use edge_record::Edge;
use place_row::{ROWS, TABLE_WORDS};
use spec_text::{CELLS, Line, LineKind, StatementKind, Workload};
use std::io::{Stdout, Write};
use unfold::{Unfolded, Unfolding};
use verdict_told::Verdict;
use walk_first::WALK_WORDS;

// What is printed of a file.
#[derive(Clone, Copy)]
enum Listing {
    Lines,
    Unfoldings,
    Edges,
    Report,
    Areas,
}

// ---- what all listings print

// Hands bytes to standard output. Each program has its own: std's contracts tie no bytes to a stream, so a public function could promise nothing.
fn print(mut out: Stdout, bytes: &[u8]) {
    let _ = out.write_all(bytes);
}

// Numbers in decimal, each after a space.
fn print_numbers(mut out: Stdout, numbers: &[u64]) {
    for n in numbers {
        let _ = write!(out, " {n}");
    }
}

// A refusal in place of a list.
fn print_refused(mut out: Stdout, number: u8, line: u64) {
    let _ = writeln!(out, "refused line\n{number} {line}");
}

fn print_edge(mut out: Stdout, e: Edge) {
    let node = e.node;
    let _ = write!(out, "{node}");
    print_numbers(out, &[e.leaves, e.into, e.enters]);
    print(out, &[b' ', e.flow, b' ', e.letter]);
    print_numbers(out, &[u64::from(e.sharing), u64::from(e.lowest)]);
    print(out, b"\n");
}

// ---- what is read

// The number of a statement's kind in the sum of a value's cells; `kl`, which came last, stands after the kinds of line.
fn summed_statement(kind: StatementKind) -> u64 {
    match kind {
        StatementKind::Is => 1,
        StatementKind::Ks => 2,
        StatementKind::Ps => 3,
        StatementKind::Ku => 4,
        StatementKind::Pu => 5,
        StatementKind::Kd => 6,
        StatementKind::Pd => 7,
        StatementKind::Kl => 16,
    }
}

// The number of a line's kind in it.
fn summed_kind(kind: LineKind) -> u64 {
    match kind {
        LineKind::Rl => 8,
        LineKind::Fk => 9,
        LineKind::Pr => 10,
        LineKind::St(k) => summed_statement(k),
        LineKind::Lo => 11,
        LineKind::Br => 12,
        LineKind::El => 13,
        LineKind::En => 14,
        LineKind::Li => 15,
    }
}

// A sum with one value more; it depends on the order of the values.
fn mix(sum: u64, value: u64) -> u64 {
    (sum % 4294967291 * 31 + value % 4294967291) % 4294967291
}

// A sum with a line's seven values more.
fn mix_line(before: u64, l: Line) -> u64 {
    let sets = [l.reads, l.writes, l.tests];
    let ids = [l.id, l.rel, l.to];
    let kind = mix(before, summed_kind(l.kind));
    let named = ids.iter().fold(kind, |sum, id| mix(sum, u64::from(*id)));
    sets.iter().fold(named, |sum, set| mix(sum, *set))
}

// How many lines a value has, and the sum of all its cells, those after the last line too.
fn list_lines(mut out: Stdout, w: Workload) {
    let count = w.count;
    let sum = w.lines.iter().fold(0, |sum, l| mix_line(sum, *l));
    let _ = writeln!(out, "accepted lines {count} sum {sum}");
}

// ---- unfoldings

// An unfolding: its number, its program, where it starts and how long it is, then its statements, which all lie in the area.
fn print_unfolding(mut out: Stdout, node: u64, u: Unfolding, statements: &[u64; ROWS]) {
    let _ = write!(out, "{node} {} {} {}", u.program, u.start, u.length);
    for k in 0..u.length {
        let at = (u.start as usize % ROWS + k as usize % ROWS) % ROWS;
        print_numbers(out, &[statements[at]]);
    }
    print(out, b"\n");
}

fn list_unfoldings(out: Stdout, w: Workload) {
    let mut statements = [0u64; ROWS];
    let told = match unfold::unfold(w, &mut statements) {
        Ok(told) => told,
        Err(fault) => {
            print_refused(out, fault.number(), 0);
            return;
        }
    };
    print(out, b"node program start length statements\n");
    for i in 0..64.min(told.count as usize) {
        print_unfolding(out, i as u64, told.unfoldings[i], &statements);
    }
}

// ---- edges

// An edge that is found. There is one each time: as many are asked for as are counted.
fn print_found(out: Stdout, found: Option<Edge>) {
    match found {
        Some(edge) => print_edge(out, edge),
        None => print(out, b"none\n"),
    }
}

// The edges of a table in order, each found from after the slot of the one before; two slots for each pair of rows.
fn print_edges(out: Stdout, table: &[u64]) {
    print(out, b"node leaves node enters flow letter shared lowest\n");
    let counts = edge_count::count_edges(table);
    let mut from: usize = 0;
    for _ in 0..counts.edges {
        let step = edge_find::edge_from(table, from);
        print_found(out, step.found);
        from = step.slot % (2 * ROWS * ROWS) + 1;
    }
}

fn list_edges(out: Stdout, w: Workload) {
    let mut table = [0u64; TABLE_WORDS];
    let filled = place_table::fill_rows(w, &mut table);
    match filled {
        Err(fault) => print_refused(out, fault.number(), 0),
        Ok(rows) => {
            let n = (rows.places * 8) as usize;
            print_edges(out, &table[..n]);
        }
    }
}

// ---- the report

fn show_report(out: Stdout, text: &[u8]) {
    let report = report_text::report_of(text);
    print(out, report.as_bytes());
}

// ---- lent areas

// Edge number k, if there is one.
fn show_number(out: Stdout, w: Workload, k: u64) {
    let a = edge_list::edge_number(w, k);
    print(out, b"edge");
    print_numbers(out, &[k]);
    match a {
        Ok(Some(edge)) => {
            print(out, b" 0 ");
            print_edge(out, edge);
        }
        Ok(None) => {
            print(out, b" 0 none\n");
        }
        Err(fault) => {
            print_numbers(out, &[u64::from(fault.number())]);
            print(out, b" none\n");
        }
    }
}

// How many edges, and the first, the middle, the last and one past the last.
fn show_counted(out: Stdout, w: Workload, refusal: u64, edges: u64, back: u64) {
    print(out, b"edges");
    print_numbers(out, &[refusal, edges, back]);
    print(out, b"\n");
    show_number(out, w, 0);
    show_number(out, w, edges / 2);
    if 0 < edges {
        show_number(out, w, edges - 1);
    }
    show_number(out, w, edges);
}

fn show_edges(out: Stdout, w: Workload) {
    let c = edge_list::edge_counts(w);
    match c {
        Ok(c) => show_counted(out, w, 0, c.edges, c.back),
        Err(fault) => show_counted(out, w, u64::from(fault.number()), 0, 0),
    }
}

// The area of eight records, marked beforehand with a record that no workload has.
fn show_put(out: Stdout, w: Workload) {
    let mark = Edge {
        node: 77,
        leaves: 77,
        into: 77,
        enters: 77,
        sharing: 77,
        lowest: 77,
        flow: b'm',
        letter: b'M',
    };
    let mut area = [mark; 8];
    let put = edge_list::put_workload_edges(w, &mut area);
    print(out, b"put");
    print_numbers(
        out,
        &[put.map_or_else(|fault| u64::from(fault.number()), |_| 0)],
    );
    print(out, b"\n");
    for e in &area {
        print_edge(out, *e);
    }
}

// Where the statements of the last unfolding end.
fn last_end(told: Unfolded) -> u64 {
    let last = told.unfoldings[((told.count % 64 + 63) % 64) as usize];
    let rows = ROWS as u64;
    last.start % rows + last.length % rows
}

// The unfoldings put into so much of an area of twelve cells, all marked with 77. Answers where the last one's statements end.
fn show_unfoldings(out: Stdout, w: Workload, room: u64) -> u64 {
    let mut area = [77u64; 12];
    let n = area.len().min(room as usize);
    let told = unfold::unfold(w, &mut area[..n]);
    let (refusal, count) = match told {
        Ok(told) => (0, told.count),
        Err(fault) => (u64::from(fault.number()), 0),
    };
    print(out, b"unfold");
    print_numbers(out, &[room, refusal, count]);
    print(out, b" :");
    print_numbers(out, &area);
    print(out, b"\n");
    told.map_or(0, last_end)
}

// Whether a cell from a place on is no longer marked with 77.
fn changed(area: &[u64; 264], from: u64) -> bool {
    area.iter().skip(from as usize).any(|cell| *cell != 77)
}

// The verdict with so much of an area for the walk, and whether a cell after the walk has changed.
fn show_verdict(out: Stdout, w: Workload, room: u64) {
    let mut area = [77u64; 264];
    let n = area.len().min(room as usize);
    let v = verdict_of::verdict_of(w, &mut area[..n]);
    let (said, from) = match v {
        Ok(Verdict::Robust(c)) => ([0, 0, c.edges, c.back], 0),
        Ok(Verdict::Danger(c, steps)) => ([0, 1, c.edges, c.back], steps % 66 * 4),
        Err(fault) => ([u64::from(fault.number()), 0, 0, 0], 0),
    };
    print(out, b"verdict");
    print_numbers(out, &[room]);
    print_numbers(out, &said);
    print_numbers(out, &[u64::from(changed(&area, from))]);
    print(out, b"\n");
}

// Everything of one value.
fn show_areas(out: Stdout, w: Workload) {
    show_edges(out, w);
    show_put(out, w);
    let places = show_unfoldings(out, w, 12);
    show_unfoldings(out, w, places);
    if 0 < places {
        show_unfoldings(out, w, places - 1);
    }
    let words = WALK_WORDS as u64;
    show_verdict(out, w, words + 4);
    show_verdict(out, w, words);
    show_verdict(out, w, words - 1);
}

fn line_of(kind: LineKind, reads: u64, writes: u64) -> Line {
    Line {
        kind,
        id: 0,
        rel: 0,
        to: 0,
        reads,
        writes,
        tests: 0,
    }
}

// A value with another line in a cell and another count of lines.
fn with_line(w: Workload, at: usize, l: Line, count: usize) -> Workload {
    let mut v = w;
    if at < CELLS {
        v.lines[at] = l;
    }
    v.count = count;
    v
}

// A value, and values near it that no text gives.
fn list_areas(out: Stdout, w: Workload) {
    let n = w.count;
    let relation = line_of(LineKind::Rl, 3, 0);
    show_areas(out, w);
    print(out, b"a loop left open\n");
    show_areas(
        out,
        with_line(w, n, line_of(LineKind::Lo, 0, 0), n % CELLS + 1),
    );
    print(out, b"a relation in the cell after the last line\n");
    show_areas(out, with_line(w, n, relation, n));
    print(out, b"a first line with writes, which its kind lacks\n");
    show_areas(out, with_line(w, 0, line_of(LineKind::Rl, 3, 1), n));
    print(out, b"more lines than cells\n");
    show_areas(out, with_line(w, CELLS, relation, CELLS + 1));
}

// ---- from the arguments to the listings

// What is asked of a text that is read, or its refusal. It is not inlined, so that the stack holds the areas of one listing at a time.
#[inline(never)]
fn list_value<List: Fn(Stdout, Workload)>(out: Stdout, text: &[u8], list: List)
    requires { List.IsAlwaysCallable list }
{
    match text_read::read_text(text) {
        Ok(w) => list(out, w),
        Err(r) => print_refused(out, r.fault.number(), r.line),
    }
}

// What is asked of a text, if anything is.
fn show_text(out: Stdout, text: &[u8], listing: Option<Listing>) {
    match listing {
        None => {}
        Some(Listing::Lines) => list_value(out, text, list_lines),
        Some(Listing::Unfoldings) => list_value(out, text, list_unfoldings),
        Some(Listing::Edges) => list_value(out, text, list_edges),
        Some(Listing::Report) => show_report(out, text),
        Some(Listing::Areas) => list_value(out, text, list_areas),
    }
}

// A file's name and what is asked of it. A text that fills the area is over the bound, whatever follows.
fn show_file(rt: &HostRuntime, path: &[u8], listing: Option<Listing>) {
    let Some(mut file) = open_read(rt, path) else {
        return;
    };
    let mut text = [0u8; INPUT_BYTES];
    let n = read_full(&mut file, &mut text);
    let out = rt.stdout();
    print(out, path);
    print(out, b"\n");
    show_text(out, &text[..n], listing);
}

// What a word asks to be listed: nothing if it is the name of a file.
fn listing_of(word: &[u8]) -> Option<Listing> {
    if same(word, b"--read") {
        Some(Listing::Lines)
    } else if same(word, b"--unfold") {
        Some(Listing::Unfoldings)
    } else if same(word, b"--edges") {
        Some(Listing::Edges)
    } else if same(word, b"--report") {
        Some(Listing::Report)
    } else if same(word, b"--areas") {
        Some(Listing::Areas)
    } else {
        None
    }
}

// An argument, with what the words before ask for; answers what is asked for after it.
fn take_argument(rt: &HostRuntime, word: &[u8], before: Option<Listing>) -> Option<Listing> {
    if same(word, b"--input") {
        verdict_run::answer_input(rt);
        return before;
    }
    let asked = listing_of(word);
    if asked.is_none() {
        show_file(rt, word, before);
    }
    asked.or(before)
}

fn main(rt: HostRuntime) {
    let mut listing = None;
    let mut word = [0u8; WORD_BYTES];
    for i in 1..usize::MAX {
        let Some(n) = argument(&rt, i, &mut word) else {
            return;
        };
        listing = take_argument(&rt, &word[..n], listing);
    }
}
