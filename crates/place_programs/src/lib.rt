// How many programs the table of lines has, and where the lines of each begin.
#![tactic(auto)]

ghost use Rattle.std.specs.Prelude.{◌≡◌, ◌/◌, ◌≤◌, ◌<◌, length};
ghost use Rattle.place_programs.specs.LinePrograms.{begun_line, begun_in};

use value_tables::{LINE_WORDS, PR};
use word_list::word_at;

// The programs so far, and the line after the `pr` of each. There is no heap: as many cells stand here as there may be programs.
#[derive(Clone, Copy)]
pub struct Begun {
    pub programs: usize,
    pub firsts: [u64; 16],
}

// The programs of the lines: a `pr` line begins one more, whose lines begin after it.
#[tactic(auto, using(crate::proofs::BegunLaws::steps), unfolding(crate::specs::LinePrograms::begun_before, crate::specs::LinePrograms::begun_with))]
pub fn programs_in(lines: &[u64]) -> Begun
    ensures { result ≡ begun_in lines.now }
{
    let mut firsts = [0u64; 16];
    let mut programs: usize = 0;
    for i in 0..lines.len() / LINE_WORDS {
        if word_at(lines, i * LINE_WORDS) != PR {
            continue;
        }
        if programs < firsts.len() {
            firsts[programs] = i as u64 + 1;
        }
        programs += 1;
    }
    Begun { programs, firsts }
}
