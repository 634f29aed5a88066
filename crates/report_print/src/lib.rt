// The bytes of the three reports: a refusal, robust, and danger with its walk.
#![tactic(auto)]

ghost use Rattle.std.specs.Prelude.{◌≡◌, [], ◌∷◌, ◌+◌, ◌*◌, ◌≤◌, ◌<◌, length, take};
ghost use Rattle.spec_text.specs.Text.{space, newline};
ghost use Rattle.spec_report.specs.Report.{decimal, flow_letter, step_line, step_lines, refusal_report, robust_report, danger_report};
ghost use Rattle.verdict_told.specs.Told.{counts_in, told_by};
ghost use Rattle.report_bytes.specs.Bytes.{flow_of};
ghost use Rattle.report_print.specs.Printed.{blank, printed_as, verdict_lines, step_at, steps_in, walk_in, bytes_for, Wrote};

use pick_laws::STEP_WORDS;
use report_bytes::{digit_byte, flow_letter};
use verdict_told::{Totals, Verdict};
use word_list::word_at;

// Room for any report. None has more than 5,744 bytes: a number has at most 20 digits, so a step takes at most 86 bytes and the 65 steps at
// most 5,590; the lines in front of them take 154.
pub const REPORT_BYTES: usize = 8192;

// So many steps of a walk are shown (W5).
const SHOWN_STEPS: usize = 65;

// A report: how many bytes it has, and the bytes with zeros after them. There is no heap: the bytes stand in as many cells as any report has.
#[derive(Clone, Copy)]
pub struct Printed {
    pub length: usize,
    pub bytes: [u8; REPORT_BYTES],
}

impl Printed {
    // No bytes yet.
    fn blank() -> Printed
        ensures { result ≡ blank }
    {
        Printed {
            length: 0,
            bytes: [0; REPORT_BYTES],
        }
    }

    // The bytes of the report, without the zeros after them.
    pub fn as_bytes(&self) -> &[u8]
        ensures { result.now ≡ take self.now.length self.now.bytes }
    {
        let n = self.length.min(REPORT_BYTES);
        &self.bytes[..n]
    }

    // Writes bytes after those that are there, as the functions below do.
    fn put(&mut self, bytes: &[u8])
        requires { self.old.length + length bytes.now ≤ 8192 }
        ensures { Wrote bytes.now (length bytes.now) self.old self.new }
    {
        let from = self.length;
        let to = from + bytes.len();
        self.bytes[from..to].copy_from_slice(bytes);
        self.length = to;
    }

    // Writes one byte.
    fn put_byte(&mut self, b: u8)
        requires { self.old.length + 1 ≤ 8192 }
        ensures { Wrote (b ∷ []) 1 self.old self.new }
    {
        self.bytes[self.length] = b;
        self.length += 1;
    }

    // Writes a number in decimal: the digits in front of the last one, then the last.
    fn put_decimal(&mut self, n: u64)
        requires { self.old.length + 20 ≤ 8192 }
        ensures { Wrote (decimal n) 20 self.old self.new }
    {
        if n < 10 {
            self.put_byte(digit_byte(n));
            return;
        }
        self.put_decimal(n / 10);
        self.put_byte(digit_byte(n));
    }

    // Writes a space and a number in decimal.
    fn put_number(&mut self, n: u64)
        requires { self.old.length + 21 ≤ 8192 }
        ensures { Wrote (space ∷ decimal n) 21 self.old self.new }
    {
        self.put_byte(b' ');
        self.put_decimal(n);
    }

    // Writes the two lines of a verdict: the names, then a word and the four counts.
    fn put_verdict(&mut self, word: &[u8], c: Totals)
        requires { (self.old.length + 125 ≤ 8192) × (length word.now ≤ 6) }
        ensures { Wrote (verdict_lines word.now (counts_in c)) 125 self.old self.new }
    {
        self.put(b"verdict programs nodes edges back\n");
        self.put(word);
        self.put_number(c.programs);
        self.put_number(c.nodes);
        self.put_number(c.edges);
        self.put_number(c.back);
        self.put_byte(b'\n');
    }

    // Writes a space, the letter of the flow, and the line's end.
    fn put_flow(&mut self, word: u64)
        requires { self.old.length + 3 ≤ 8192 }
        ensures { Wrote (space ∷ flow_letter (flow_of word) ∷ newline ∷ []) 3 self.old self.new }
    {
        self.put_byte(b' ');
        self.put_byte(flow_letter(word));
        self.put_byte(b'\n');
    }

    // Writes the line of step k of a walk.
    fn put_step(&mut self, k: usize, walk: &[u64])
        requires { (k < 65) × (self.old.length + 86 ≤ 8192) }
        ensures { Wrote (step_line k (step_at walk.now k)) 86 self.old self.new }
    {
        let first = k * STEP_WORDS;
        self.put_decimal(k as u64);
        self.put_number(word_at(walk, first));
        self.put_number(word_at(walk, first + 1));
        self.put_number(word_at(walk, first + 2));
        self.put_flow(word_at(walk, first + 3));
    }

    // Writes the lines of the first steps of a walk.
    fn put_steps(&mut self, walk: &[u64], steps: usize)
        requires { (steps ≤ 65) × (self.old.length + steps * 86 ≤ 8192) }
        ensures { Wrote (step_lines 0 (steps_in walk.now 0 steps)) (steps * 86) self.old self.new }
    {
        for k in 0..steps {
            self.put_step(k, walk);
        }
    }
}

// The report of a refusal: its number and line.
pub fn refusal_printed(number: u64, line: u64) -> Printed
    ensures { result ≡ printed_as (refusal_report number line) }
{
    let mut out = Printed::blank();
    out.put(b"refused line\n");
    out.put_decimal(number);
    out.put_number(line);
    out.put_byte(b'\n');
    out
}

// The report of a robust workload.
fn robust_printed(c: Totals) -> Printed
    ensures { result ≡ printed_as (robust_report (counts_in c)) }
{
    let mut out = Printed::blank();
    out.put_verdict(b"robust", c);
    out
}

// The report of a dangerous walk that stands at the front of the words, four words to a step; of more than 65 steps the first 65.
fn danger_printed(c: Totals, walk: &[u64], steps: usize) -> Printed
    ensures { result ≡ printed_as (danger_report (counts_in c) (walk_in walk.now steps)) }
{
    let shown = steps.min(SHOWN_STEPS);
    let mut out = Printed::blank();
    out.put_verdict(b"danger", c);
    out.put(b"step node leaves enters flow\n");
    out.put_steps(walk, shown);
    out
}

// The report of an answer, with the walk that stands at the front of the area; a refusal because of the state has line 0.
#[tactic(auto, unfolding(crate::specs::Printed::bytes_for))]
pub fn verdict_printed(v: Result<Verdict, u8>, area: &[u64]) -> Printed
    ensures { result ≡ printed_as (bytes_for (told_by v) area.now) }
{
    match v {
        Ok(Verdict::Robust(c)) => robust_printed(c),
        Ok(Verdict::Danger(c, steps)) => danger_printed(c, area, steps as usize),
        Err(number) => refusal_printed(u64::from(number), 0),
    }
}
