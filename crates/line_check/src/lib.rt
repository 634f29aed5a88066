// The tests of a line over the state that words keep. They are joined by `&` and `|`, which branch nowhere.
#![tactic(auto)]

ghost use Rattle.std.specs.Prelude.{◌≡◌, true, not, ◌&&◌, ◌-◌, eqb, ltb, get_or};
ghost use Rattle.spec_text.specs.declared.Line.{Line as LineValue};
ghost use Rattle.spec_text.specs.declared.LineKind.TheVariants.{Rl as Relation, Fk as Key, Pr as Program, St as Statement, Lo as Loop};
ghost use Rattle.spec_text.specs.declared.LineKind.TheVariants.{Br as Branch, El as Second, En as Closing, Li as Link};
ghost use Rattle.line_state.specs.StateSteps.{in_body_of, innermost_of, check_by, check_as, check_of};
ghost use Rattle.line_state.specs.StateWords.{state_in};
ghost use Rattle.refusal.specs.Told.{number_told};

use line_links::link_fits;
use line_sets::sets_fit;
use refusal::Fault;
use spec_text::{Line, LineKind, StatementKind};

// A number is the sum of two.
fn is_sum(n: u64, a: u64, b: u64) -> bool
    ensures { result ≡ (not (ltb n a) && eqb (n - a) b) }
{
    if n < a {
        return false;
    }
    n - a == b
}

// A program has begun, and its links have not.
fn in_body(words: &[u64; line_state::WORDS]) -> bool
    ensures { result ≡ in_body_of (get_or words.now 421 0) (get_or words.now 417 0) }
{
    let programs = words[line_state::PROGRAMS];
    let links = words[line_state::LINKS];
    (programs != 0) & (links == 0)
}

// The innermost open block is of this part.
#[tactic(auto, unfolding(line_state::specs::StateWords::state_in))]
fn innermost(words: &[u64; line_state::WORDS], part: u64) -> bool
    ensures { result ≡ innermost_of (state_in words.now).stack part }
{
    let depth = words[line_state::DEPTH];
    let innermost = line_state::cell(words, line_state::OPEN_PARTS, depth);
    (depth != 0) & (innermost == part)
}

// The fault of the first test that fails, in the order of the rules; what a kind does not ask is true. Most lines pass, and one test tells so:
// the flags are joined without a branch, which a chain of early returns would not do.
fn first_fault(room: bool, ordered: bool, named: bool, sets: bool, fits: bool) -> Result<(), Fault>
    ensures { number_told result ≡ check_by room ordered named sets true fits }
{
    if room & ordered & named & sets & fits {
        return Ok(());
    }
    if !room {
        return Err(Fault::Bound);
    }
    if !ordered {
        return Err(Fault::Order);
    }
    if !named {
        return Err(Fault::Ids);
    }
    if !sets {
        return Err(Fault::Sets);
    }
    Err(Fault::Link)
}

fn check_relation(words: &[u64; line_state::WORDS], l: Line) -> Result<(), Fault>
    ensures { number_told result ≡ check_as (state_in words.now) l Relation }
{
    let lines = words[line_state::LINES];
    let relations = words[line_state::RELATIONS];
    first_fault(
        relations < line_state::MOST_RELATIONS,
        lines == relations,
        l.id as u64 == relations,
        l.reads != 0,
        true,
    )
}

fn check_key(words: &[u64; line_state::WORDS], l: Line) -> Result<(), Fault>
    ensures { number_told result ≡ check_as (state_in words.now) l Key }
{
    let lines = words[line_state::LINES];
    let relations = words[line_state::RELATIONS];
    let keys = words[line_state::KEYS];
    let ordered = is_sum(lines, relations, keys);
    let named = (l.id as u64 == keys) & ((l.rel as u64) < relations) & ((l.to as u64) < relations);
    first_fault(keys < line_state::MOST_KEYS, ordered, named, true, true)
}

fn check_program(words: &[u64; line_state::WORDS], l: Line) -> Result<(), Fault>
    ensures { number_told result ≡ check_as (state_in words.now) l Program }
{
    let programs = words[line_state::PROGRAMS];
    let depth = words[line_state::DEPTH];
    first_fault(
        programs < line_state::MOST_PROGRAMS,
        depth == 0,
        l.id as u64 == programs,
        true,
        true,
    )
}

fn check_statement(
    words: &[u64; line_state::WORDS],
    kind: StatementKind,
    l: Line,
) -> Result<(), Fault>
    ensures { number_told result ≡ check_as (state_in words.now) l (Statement kind) }
{
    let programs = words[line_state::PROGRAMS];
    let statements = words[line_state::STATEMENTS];
    let body = words[line_state::BODY];
    let relations = words[line_state::RELATIONS];
    let whole = line_state::cell(words, line_state::SETS, l.rel as u64);
    let room = (programs == 0)
        | ((statements < line_state::MOST_STATEMENTS) & (body < line_state::MOST_BODY));
    let named = (l.id as u64 == statements) & ((l.rel as u64) < relations);
    first_fault(room, in_body(words), named, sets_fit(whole, kind, l), true)
}

// A loop or a branch begins.
fn check_opening(words: &[u64; line_state::WORDS]) -> Result<(), Fault>
    ensures { (l : LineValue) → (number_told result ≡ check_as (state_in words.now) l Loop)
        × (number_told result ≡ check_as (state_in words.now) l Branch) }
{
    let programs = words[line_state::PROGRAMS];
    let body = words[line_state::BODY];
    let depth = words[line_state::DEPTH];
    let room = (programs == 0)
        | ((body < line_state::MOST_BODY) & (depth < line_state::MOST_DEPTH));
    first_fault(room, in_body(words), true, true, true)
}

fn check_second(words: &[u64; line_state::WORDS]) -> Result<(), Fault>
    ensures { (l : LineValue) → number_told result ≡ check_as (state_in words.now) l Second }
{
    let programs = words[line_state::PROGRAMS];
    let body = words[line_state::BODY];
    let room = (programs == 0) | (body < line_state::MOST_BODY);
    let ordered = in_body(words) & innermost(words, line_state::FIRST_ARM);
    first_fault(room, ordered, true, true, true)
}

fn check_closing(words: &[u64; line_state::WORDS]) -> Result<(), Fault>
    ensures { (l : LineValue) → number_told result ≡ check_as (state_in words.now) l Closing }
{
    let programs = words[line_state::PROGRAMS];
    let body = words[line_state::BODY];
    let room = (programs == 0) | (body < line_state::MOST_BODY);
    let ordered = in_body(words)
        & (innermost(words, line_state::LOOP) | innermost(words, line_state::SECOND_ARM));
    first_fault(room, ordered, true, true, true)
}

fn check_link(words: &[u64; line_state::WORDS], l: Line) -> Result<(), Fault>
    ensures { number_told result ≡ check_as (state_in words.now) l Link }
{
    let programs = words[line_state::PROGRAMS];
    let links = words[line_state::LINKS];
    let depth = words[line_state::DEPTH];
    let keys = words[line_state::KEYS];
    let statements = words[line_state::STATEMENTS];
    let room = (programs == 0) | (links < line_state::MOST_LINKS);
    let ordered = (programs != 0) & (depth == 0);
    let named = ((l.id as u64) < keys)
        & ((l.rel as u64) < statements)
        & ((l.to as u64) < statements);
    first_fault(room, ordered, named, true, link_fits(words, l))
}

// The fault of the first test that the line fails.
pub fn check(words: &[u64; line_state::WORDS], l: Line) -> Result<(), Fault>
    ensures { number_told result ≡ check_of (state_in words.now) l }
{
    let kind = l.kind;
    match kind {
        LineKind::Rl => check_relation(words, l),
        LineKind::Fk => check_key(words, l),
        LineKind::Pr => check_program(words, l),
        LineKind::St(j) => check_statement(words, j, l),
        LineKind::Lo => check_opening(words),
        LineKind::Br => check_opening(words),
        LineKind::El => check_second(words),
        LineKind::En => check_closing(words),
        LineKind::Li => check_link(words, l),
    }
}
