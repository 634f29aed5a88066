// Where the links of a program begin in the table of lines, and what its statements are marked with.
#![tactic(auto)]

ghost use Rattle.std.specs.Prelude.{◌≡◌, ◌-◌, ◌/◌, length};
ghost use Rattle.place_links.specs.LineLinks.{links_in};

use value_tables::{LI, LINE_WORDS, MARK, PR};
use word_list::word_at;

// Where the links of a program begin, and the marks of its statements: the bits of those that shield.
#[derive(Clone, Copy, Debug, PartialEq, Eq)]
pub struct Links {
    pub first: usize,
    pub marks: u64,
}

// The links of the program whose lines begin at `first`: its statements and flow stand before them, and they stand before the next `pr`.
#[tactic(auto, using(crate::proofs::LinkLaws::link_steps), unfolding(crate::specs::LineLinks::links_in))]
pub fn links_from(lines: &[u64], first: usize) -> Links
    ensures { result ≡ links_in lines.now first }
{
    let mut links = Links { first, marks: 0 };
    for i in first..lines.len() / LINE_WORDS {
        let kind = word_at(lines, i * LINE_WORDS);
        if kind == PR || kind == LI {
            return links;
        }
        links.first = i + 1;
        links.marks |= word_at(lines, i * LINE_WORDS + MARK);
    }
    links
}
