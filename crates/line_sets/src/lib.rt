// Whether the sets of a statement lie within its relation's and are what its kind asks (T9), by the facts of its kind (line_kinds).
#![tactic(auto)]

ghost use Rattle.std.specs.Prelude.{◌≡◌};
ghost use Rattle.spec_text.specs.Reading.{kind_sets, sets_allowed};

use line_kinds::{SOME_READS, SOME_WRITES, WHOLE, facts_of};
use spec_text::{Line, StatementKind};

// What the kind of a statement says of its sets, over a relation with this set.
fn kind_sets(whole: u64, kind: StatementKind, l: Line) -> bool
    ensures { result ≡ kind_sets whole kind l }
{
    let facts = facts_of(kind);
    let reads = (facts & SOME_READS == 0) | (l.reads != 0);
    let writes = (facts & SOME_WRITES == 0) | (l.writes != 0);
    let all = (facts & WHOLE == 0) | (l.writes == whole);
    reads & writes & all
}

// The sets of a statement fit a relation with this set.
pub fn sets_fit(whole: u64, kind: StatementKind, l: Line) -> bool
    ensures { result ≡ sets_allowed whole kind l }
{
    let reads = l.reads & whole == l.reads;
    let writes = l.writes & whole == l.writes;
    let tests = l.tests & whole == l.tests;
    (reads & writes & tests) & kind_sets(whole, kind, l)
}
