// Shows that a part of a workload is the value of the text that has those programs alone. Arguments come in pairs: `--of` and a file say of which
// whole the parts after it are; a group, as a decimal number, and a file ask whether the part that the group makes is the file's value.
#![tactic(auto)]

use check::same;
use console::{INPUT_BYTES, WORD_BYTES, argument, open_read, read_full};
use refusal::Refusal;
use spec_text::{CELLS, Line, LineKind, Workload};
use std::io::{Stdout, Write};
use text_read::{read_text, work_of};
use value_part::part_of;

// ---- what is printed

// Hands bytes to standard output. Each program has its own: std's contracts tie no bytes to a stream, so a public function could promise nothing.
fn print(mut out: Stdout, bytes: &[u8]) {
    let _ = out.write_all(bytes);
}

fn print_same(out: Stdout, yes: bool) {
    print(out, if yes { b" same\n" } else { b" differs\n" });
}

fn print_refused(mut out: Stdout, number: u8) {
    let _ = writeln!(out, " refused {number}");
}

// Whether the part that a group makes of the whole is what was read, or a refusal.
fn show_part(out: Stdout, whole: Workload, group: u16, parsed: Result<Workload, Refusal>) {
    let w = match parsed {
        Ok(w) => w,
        Err(r) => {
            print_refused(out, r.fault.number());
            return;
        }
    };
    match part_of(whole, group) {
        Ok(part) => print_same(out, part == w),
        Err(refused) => print_refused(out, refused.fault.number()),
    }
}

// ---- values near the whole that no text gives

// What is answered for a value that no text gives, and whether the value is handed back.
fn show_near(mut out: Stdout, near: Workload) {
    let (number, back) = match part_of(near, u16::MAX) {
        Ok(part) => (0, part),
        Err(refused) => (refused.fault.number(), refused.work),
    };
    let _ = write!(out, ": {number}");
    print_same(out, back == near);
}

// A value with another line in a cell, of this kind and with these reads, and another count of lines.
fn with_line(w: Workload, at: usize, kind: LineKind, reads: u64, count: usize) -> Workload {
    let l = Line {
        kind,
        id: 0,
        rel: 0,
        to: 0,
        reads,
        writes: 0,
        tests: 0,
    };
    let mut v = w;
    if at < CELLS {
        v.lines[at] = l;
    }
    v.count = count;
    v
}

// Where a cell is left, a loop that nothing closes and a relation that is not counted stand in it; and one line more than there are cells.
fn show_all_near(out: Stdout, w: Workload) {
    let n = w.count;
    if n < CELLS {
        print(out, b"a loop after the last line");
        show_near(out, with_line(w, n, LineKind::Lo, 0, n + 1));
        print(out, b"a relation in the cell after the last line");
        show_near(out, with_line(w, n, LineKind::Rl, 3, n));
    }
    print(out, b"more lines than cells");
    show_near(out, with_line(w, CELLS, LineKind::Rl, 3, CELLS + 1));
}

// ---- from the arguments to what is printed

// What a file's text is read into. A text that fills the area is over the bound, whatever follows; a file that cannot be opened is named on
// standard error and read as no bytes.
fn read_file(rt: &HostRuntime, path: &[u8]) -> Result<Workload, Refusal> {
    let Some(mut file) = open_read(rt, path) else {
        return read_text(b"");
    };
    let mut text = [0u8; INPUT_BYTES];
    let n = read_full(&mut file, &mut text);
    read_text(&text[..n])
}

// The group that decimal digits say: a number up to 65535.
fn group_of(word: &[u8]) -> Option<u16> {
    if word.iter().all(u8::is_ascii_digit) {
        std::str::from_utf8(word).ok()?.parse().ok()
    } else {
        None
    }
}

// A value that no text gives.
fn no_value() -> Workload {
    value_unused::unused_cells(CELLS + 1)
}

// The whole that a file gives: of a refused text a value that no text gives. Of one that some text gives also what is answered for values near it.
fn take_whole(out: Stdout, parsed: Result<Workload, Refusal>) -> Workload {
    match parsed {
        Ok(w) => {
            print(out, b"\n");
            show_all_near(out, w);
        }
        Err(r) => print_refused(out, r.fault.number()),
    }
    work_of(parsed)
}

// What two words ask.
fn take_words(rt: &HostRuntime, whole: Workload, word: &[u8], path: &[u8]) -> Workload {
    let out = rt.stdout();
    print(out, word);
    print(out, b" ");
    print(out, path);
    let parsed = read_file(rt, path);
    if same(word, b"--of") {
        return take_whole(out, parsed);
    }
    match group_of(word) {
        Some(group) => show_part(out, whole, group, parsed),
        None => print(out, b" no group\n"),
    }
    whole
}

// Before the first whole there is none: a value that no text gives.
fn main(rt: HostRuntime) {
    let mut whole = no_value();
    let mut word = [0u8; WORD_BYTES];
    let mut path = [0u8; WORD_BYTES];
    for k in 0..usize::MAX / 4 {
        let Some(n) = argument(&rt, 2 * k + 1, &mut word) else {
            return;
        };
        let Some(m) = argument(&rt, 2 * k + 2, &mut path) else {
            return;
        };
        whole = take_words(&rt, whole, &word[..n], &path[..m]);
    }
}
