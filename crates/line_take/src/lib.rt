// The state that words keep, after a line. A place in an array is taken within its 32 cells and a count within 65536, so that no store needs a
// test; where the words hold lines, neither changes anything.
#![tactic(auto)]

ghost use Rattle.std.specs.Prelude.{◌≡◌, cond};
ghost use Rattle.spec_text.specs.Reading.{can_be_parent};
ghost use Rattle.line_state.specs.StateSteps.{mark_of, pushed_of, popped_of, second_of, take_as};
ghost use Rattle.line_state.specs.StateSteps.{taken_relation, taken_key, taken_program, taken_statement, taken_flow, taken_link};
ghost use Rattle.line_state.specs.StateWords.{state_in, Taken};
ghost use Rattle.line_take.specs.Stores.{at_depth, line_by, Took};

use line_kinds::facts_of;
use line_state::{
    BODY, DEPTH, FIRST_ARM, LINES, LOOP, OPEN_FIRSTS, OPEN_LOOPS, OPEN_PARTS, OPEN_PLACES,
    OPEN_SECONDS, SECOND_ARM, WORDS,
};
use spec_text::{Line, LineKind, StatementKind};

// Where counts begin again; none that is kept comes near it.
const COUNTS: u64 = 65536;

// The cells of an array, and the bits of a word.
const CELLS: u64 = 32;

const BITS: u64 = 64;

// A relation more, with its set.
fn take_relation(words: &mut [u64; WORDS], reads: u64)
    ensures { Took words.old words.new (taken_relation (state_in words.old) reads) }
{
    let at = words[line_state::RELATIONS];
    words[line_state::SETS + (at % CELLS) as usize] = reads;
    words[line_state::RELATIONS] = at % COUNTS + 1;
    words[LINES] = words[LINES] % COUNTS + 1;
}

// A foreign key more, with its child and its parent relation.
fn take_key(words: &mut [u64; WORDS], child: u8, parent: u8)
    ensures { Took words.old words.new (taken_key (state_in words.old) child parent) }
{
    let at = words[line_state::KEYS];
    let place = (at % CELLS) as usize;
    words[line_state::CHILDREN + place] = child as u64;
    words[line_state::PARENTS + place] = parent as u64;
    words[line_state::KEYS] = at % COUNTS + 1;
    words[LINES] = words[LINES] % COUNTS + 1;
}

// A new program: no block is open, and it has no line yet.
fn take_program(words: &mut [u64; WORDS])
    ensures { Took words.old words.new (taken_program (state_in words.old)) }
{
    words[BODY] = 0;
    words[line_state::LINKS] = 0;
    words[DEPTH] = 0;
    words[line_state::STATEMENTS] = 0;
    words[line_state::PROGRAMS] = words[line_state::PROGRAMS] % COUNTS + 1;
    words[LINES] = words[LINES] % COUNTS + 1;
}

// One statement more, within the open blocks, with 1 where its kind may be a link's parent.
fn take_statement(words: &mut [u64; WORDS], rel: u8, kind: StatementKind)
    ensures { Took words.old words.new (taken_statement (state_in words.old) rel (cond (can_be_parent kind) 1 0)) }
{
    let fit = (facts_of(kind) & line_kinds::PARENT) / line_kinds::PARENT;
    let depth = (words[DEPTH] % CELLS) as usize;
    let loops = words[OPEN_LOOPS + depth];
    let firsts = words[OPEN_FIRSTS + depth];
    let seconds = words[OPEN_SECONDS + depth];
    let at = words[line_state::STATEMENTS];
    let place = (at % CELLS) as usize;
    words[line_state::STATEMENT_RELATIONS + place] = rel as u64;
    words[line_state::PARENTAL + place] = fit;
    words[line_state::AROUND_LOOPS + place] = loops;
    words[line_state::AROUND_FIRSTS + place] = firsts;
    words[line_state::AROUND_SECONDS + place] = seconds;
    words[line_state::STATEMENTS] = at % COUNTS + 1;
    words[BODY] = words[BODY] % COUNTS + 1;
    words[LINES] = words[LINES] % COUNTS + 1;
}

// A block's place as a set, where the block is of the part asked for.
fn mark(part: u64, which: u64, place: u64) -> u64
    ensures { result ≡ mark_of part which place }
{
    if part == which {
        1u64 << (place % BITS)
    } else {
        0
    }
}

// One block more above a depth: its place is added to the places of its part.
fn push(words: &mut [u64; WORDS], below: u64, place: u64, part: u64)
    ensures { Took words.old words.new
        (taken_flow (state_in words.old) (pushed_of (at_depth (state_in words.old).stack below) place part)) }
{
    let low = (below % CELLS) as usize;
    let loops = mark(part, LOOP, place) | words[OPEN_LOOPS + low];
    let firsts = mark(part, FIRST_ARM, place) | words[OPEN_FIRSTS + low];
    let seconds = mark(part, SECOND_ARM, place) | words[OPEN_SECONDS + low];
    let above = below % COUNTS + 1;
    let high = (above % CELLS) as usize;
    words[OPEN_PLACES + high] = place;
    words[OPEN_PARTS + high] = part;
    words[OPEN_LOOPS + high] = loops;
    words[OPEN_FIRSTS + high] = firsts;
    words[OPEN_SECONDS + high] = seconds;
    words[BODY] = words[BODY] % COUNTS + 1;
    words[LINES] = words[LINES] % COUNTS + 1;
    words[DEPTH] = above;
}

// The innermost block goes on with its second arm.
fn take_second(words: &mut [u64; WORDS])
    ensures { Took words.old words.new (taken_flow (state_in words.old) (second_of (state_in words.old).stack)) }
{
    let depth = words[DEPTH];
    let place = words[OPEN_PLACES + (depth % CELLS) as usize];
    push(words, depth.saturating_sub(1), place, SECOND_ARM);
}

// The innermost block closed.
fn take_closing(words: &mut [u64; WORDS])
    ensures { Took words.old words.new (taken_flow (state_in words.old) (popped_of (state_in words.old).stack)) }
{
    let below = words[DEPTH].saturating_sub(1);
    words[BODY] = words[BODY] % COUNTS + 1;
    words[LINES] = words[LINES] % COUNTS + 1;
    words[DEPTH] = below;
}

// A loop or the first arm of a branch begins.
fn take_opening(words: &mut [u64; WORDS], part: u64)
    ensures { Took words.old words.new
        (taken_flow (state_in words.old) (pushed_of (state_in words.old).stack (state_in words.old).body part)) }
{
    let depth = words[DEPTH];
    let body = words[BODY];
    push(words, depth, body, part);
}

// A link more.
fn take_link(words: &mut [u64; WORDS])
    ensures { Took words.old words.new (taken_link (state_in words.old)) }
{
    words[line_state::LINKS] = words[line_state::LINKS] % COUNTS + 1;
    words[LINES] = words[LINES] % COUNTS + 1;
}

// A line of this kind taken, with the values that matter to it: with few locals the nine arms are cheap to check.
fn take_kind(words: &mut [u64; WORDS], kind: LineKind, reads: u64, rel: u8, to: u8)
    ensures { Took words.old words.new (take_as (state_in words.old) (line_by kind reads rel to) kind) }
{
    match kind {
        LineKind::Rl => take_relation(words, reads),
        LineKind::Fk => take_key(words, rel, to),
        LineKind::Pr => take_program(words),
        LineKind::St(j) => take_statement(words, rel, j),
        LineKind::Lo => take_opening(words, LOOP),
        LineKind::Br => take_opening(words, FIRST_ARM),
        LineKind::El => take_second(words),
        LineKind::En => take_closing(words),
        LineKind::Li => take_link(words),
    }
}

// A line taken.
pub fn take(words: &mut [u64; WORDS], l: Line)
    ensures { Taken words.old l words.new }
{
    let kind = l.kind;
    take_kind(words, kind, l.reads, l.rel, l.to);
}
