// R8: whether a link fits the statements and the keys that words keep.
#![tactic(auto)]

ghost use Rattle.std.specs.Prelude.{◌≡◌, eqb};
ghost use Rattle.spec_base.specs.Basic.{within};
ghost use Rattle.line_state.specs.StateSteps.{cell_of, blocks_within_of, link_fits_of};
ghost use Rattle.line_state.specs.StateWords.{state_in, array_in};

use spec_text::Line;

// Two cells of an array as sets: the first within the second.
fn cell_within(words: &[u64; line_state::WORDS], from: usize, parent: u64, child: u64) -> bool
    ensures { result ≡ within (cell_of (array_in words.now from) parent) (cell_of (array_in words.now from) child) }
{
    let outer = line_state::cell(words, from, parent);
    let inner = line_state::cell(words, from, child);
    outer & inner == outer
}

// The blocks around the first statement are around the second.
fn blocks_within(words: &[u64; line_state::WORDS], parent: u64, child: u64) -> bool
    ensures { result ≡ blocks_within_of (state_in words.now).statements parent child }
{
    let loops = cell_within(words, line_state::AROUND_LOOPS, parent, child);
    let firsts = cell_within(words, line_state::AROUND_FIRSTS, parent, child);
    let seconds = cell_within(words, line_state::AROUND_SECONDS, parent, child);
    loops & firsts & seconds
}

// Two cells of two arrays are equal.
fn same_cell(words: &[u64; line_state::WORDS], a: usize, i: u64, b: usize, j: u64) -> bool
    ensures { result ≡ eqb (cell_of (array_in words.now a) i) (cell_of (array_in words.now b) j) }
{
    line_state::cell(words, a, i) == line_state::cell(words, b, j)
}

// A link fits the words: child and parent are over its key's relations, the parent is of a kind that may be one, and its blocks are the child's.
pub fn link_fits(words: &[u64; line_state::WORDS], l: Line) -> bool
    ensures { result ≡ link_fits_of (state_in words.now).tables (state_in words.now).statements l }
{
    let id = l.id as u64;
    let child = l.rel as u64;
    let parent = l.to as u64;
    let of_child = same_cell(
        words,
        line_state::STATEMENT_RELATIONS,
        child,
        line_state::CHILDREN,
        id,
    );
    let of_parent = same_cell(
        words,
        line_state::STATEMENT_RELATIONS,
        parent,
        line_state::PARENTS,
        id,
    );
    let parental = line_state::cell(words, line_state::PARENTAL, parent);
    (of_child & of_parent & (parental == 1)) & blocks_within(words, parent, child)
}
