// Part of a workload: the value that a group of a value's programs gives (Req 06).
#![tactic(auto)]

ghost use Rattle.std.specs.Prelude.{◌≡◌, ◌≤◌};
ghost use Rattle.spec_part.specs.Group.{part_of};
ghost use Rattle.spec_text.specs.Reading.{is_program};
ghost use Rattle.spec_text.specs.Value.{Given};
ghost use Rattle.value_part.specs.Parted.{Parted};
ghost use Rattle.value_part.specs.PartSteps.{numbered_as, gone_on};

use refusal::Fault;
use spec_text::{Line, LineKind, Workload};

// A value that no text gives, handed back as it is beside the fault that says so.
#[derive(Clone, Copy)]
pub struct NotGiven {
    pub fault: Fault,
    pub work: Workload,
}

// How far the lines of the whole have been gone through: how many programs were passed, how many of them were chosen, and whether the lines at
// hand are kept.
#[derive(Clone, Copy)]
struct Gone {
    passed: u64,
    chosen: u8,
    keeping: bool,
}

// The line is a `pr`: of all kinds it alone has an id and nothing else.
fn is_program(l: Line) -> bool
    ensures { result ≡ is_program l }
{
    line_kinds::line_facts(l.kind) == line_kinds::ID
}

// A program's `pr` with this number; any other line as it is.
fn numbered(number: u8, l: Line) -> Line
    ensures { result ≡ numbered_as number l }
{
    if !is_program(l) {
        return l;
    }
    Line {
        kind: LineKind::Pr,
        id: number,
        rel: 0,
        to: 0,
        reads: 0,
        writes: 0,
        tests: 0,
    }
}

// One line further: a `pr` is passed and its program chosen or not; any other line changes nothing.
fn go_on(group: u16, at: Gone, l: Line) -> Gone
    requires { (at.passed ≤ 16) × (at.chosen ≤ 16) }
    ensures { result ≡ gone_on group at l }
{
    let passed = at.passed;
    let chosen = at.chosen;
    if !is_program(l) {
        return at;
    }
    if !word_list::has_bit(group as u64, passed) {
        return Gone {
            passed: passed + 1,
            chosen,
            keeping: false,
        };
    }
    Gone {
        passed: passed + 1,
        chosen: chosen + 1,
        keeping: true,
    }
}

// The lines that are kept, one after the other, in cells that no line uses: relations and keys, and the lines of chosen programs.
fn kept_lines(w: Workload, group: u16) -> Workload
    requires { Given w }
    ensures { result ≡ part_of group w }
{
    let mut part = value_unused::unused_cells(0);
    let mut at = Gone {
        passed: 0,
        chosen: 0,
        keeping: true,
    };
    for l in &w.lines[..w.count] {
        let number = at.chosen;
        at = go_on(group, at, *l);
        if !at.keeping {
            continue;
        }
        part.lines[part.count] = numbered(number, *l);
        part.count += 1;
    }
    part
}

// The part of a value that a group of its programs makes: bit k of the group chooses program k. A value that no text gives is handed back beside
// its fault, 21.
pub fn part_of(w: Workload, group: u16) -> Result<Workload, NotGiven>
    ensures { Parted w group result }
{
    if !value_given::is_given(w) {
        return Err(NotGiven {
            fault: Fault::NotGiven,
            work: w,
        });
    }
    Ok(kept_lines(w, group))
}
