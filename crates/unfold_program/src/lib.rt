// One program of a workload: where its `pr` stands, how many unfoldings it has, and how many statements stand in them.
#![tactic(auto)]

ghost use Rattle.std.specs.Prelude.{◌≡◌, ◌≤◌, ◌<◌, length};
ghost use Rattle.unfold_laws.specs.Pieces.{line_programs};
ghost use Rattle.value_tables.specs.Lines.{table_codes};
ghost use Rattle.unfold_program.specs.ProgramSettled.{ProgramSettled};
ghost use Rattle.unfold_program.specs.ProgramSteps.{ProgramLine, ProgramOver};

use refusal::Fault;
use spec_text::Workload;
use unfold_count::count_run;
use unfold_laws::LineCode;
use value_given::is_given;
use value_lines::line_table;
use value_tables::{LINE_WORDS, code_at, lines_in};

// What is told of a program: the number of its `pr` line, its unfoldings and the statements in them, each stopped at 513.
#[derive(Clone, Copy, Debug, Default, PartialEq, Eq)]
pub struct ProgramUnfoldings {
    pub line: u64,
    pub count: u64,
    pub statements: u64,
}

// The programs that begin before the next line, where so many begin before this one.
fn programs_past(lines: &[u64], i: usize, before: u64) -> u64
    requires { (i < length (table_codes lines.now)) × (before ≤ i) }
    ensures { result ≡ line_programs (table_codes lines.now) i before }
{
    match code_at(lines, i) {
        LineCode::Program => before + 1,
        _ => before,
    }
}

// The number of the `pr` line of program k, where there is one.
pub fn program_line(lines: &[u64], k: u64) -> Option<usize>
    ensures { ProgramLine (table_codes lines.now) k result }
{
    let mut before: u64 = 0;
    for i in 0..lines_in(lines) {
        before = programs_past(lines, i, before);
        if k < before {
            return Some(i);
        }
    }
    None
}

// What is told of program k over a table of lines, where there is one.
fn program_over(lines: &[u64], k: u64) -> Option<ProgramUnfoldings>
    ensures { ProgramOver (table_codes lines.now) k result }
{
    let i = program_line(lines, k)?;
    let c = count_run(lines, i + 1, lines_in(lines) - (i + 1));
    Some(ProgramUnfoldings {
        line: i as u64,
        count: c.count,
        statements: c.statements,
    })
}

// Program k of a workload value: where it stands, its unfoldings and the statements in them; that there is none; or refuses 21.
pub fn program_unfoldings(w: Workload, k: u64) -> Result<Option<ProgramUnfoldings>, Fault>
    ensures { ProgramSettled w k result }
{
    if !is_given(w) {
        return Err(Fault::NotGiven);
    }
    let n = w.count * LINE_WORDS;
    let lines = line_table(w);
    Ok(program_over(&lines[..n], k))
}
