// Whether each letter can hold between two kinds of statement, worked out from the rules: from which sets a kind has, which of them may be empty and
// which are the whole relation (Req 05). The constant table has no part in it.
#![tactic(auto)]

ghost use Rattle.std.specs.Prelude.{cond, ◌≡◌};
ghost use Rattle.spec_graph.specs.Edge.{R, W, T, inserts, deletes, has_tests, Letter};
ghost use Rattle.spec_kinds.specs.declared.Chance.TheVariants.{Impossible, Certain};
ghost use Rattle.spec_kinds.specs.Meaning.{Means};
ghost use Rattle.law_kinds.specs.SetMeaning.{SetMeans};
ghost use Rattle.law_kinds.specs.Chances.{meeting};
ghost use Rattle.law_kinds.specs.KindSets.{is_there, is_filled, is_whole};
ghost use Rattle.kind_chances.specs.Classes.{class_by};
ghost use Rattle.kind_chances.specs.Entries.{EntryMeans};

use law_kinds::SetClass;
use line_kinds::{READS, SOME_READS, SOME_WRITES, TESTS, WHOLE, WRITES, facts_of};
use spec_kinds::Chance;
use spec_text::StatementKind;

// The chances of the five letters between two kinds.
#[derive(Clone, Copy)]
pub struct Entry {
    pub a: Chance,
    pub b: Chance,
    pub c: Chance,
    pub d: Chance,
    pub e: Chance,
}

// ---- the sets of a kind

// The class of a set, from whether the kind has it, whether it is never empty, and whether it is the whole relation: three flags, since each is a bit
// of the kind's facts.
fn class_of(there: bool, some: bool, whole: bool) -> SetClass
    ensures { result ≡ class_by there some whole }
{
    if !there {
        SetClass::Lacking
    } else if whole {
        SetClass::Whole
    } else if some {
        SetClass::Filled
    } else {
        SetClass::Any
    }
}

// What T9 allows the reads of a kind to be.
fn reads_of(k: StatementKind) -> SetClass
    ensures { SetMeans R k result }
{
    let facts = facts_of(k);
    class_of(facts & READS != 0, facts & SOME_READS != 0, false)
}

// What T9 allows the writes of a kind to be.
fn writes_of(k: StatementKind) -> SetClass
    ensures { SetMeans W k result }
{
    let facts = facts_of(k);
    class_of(
        facts & WRITES != 0,
        facts & SOME_WRITES != 0,
        facts & WHOLE != 0,
    )
}

// What T9 allows the tests of a kind to be.
fn tests_of(k: StatementKind) -> SetClass
    ensures { SetMeans T k result }
{
    let facts = facts_of(k);
    class_of(facts & TESTS != 0, false, false)
}

fn has_tests(k: StatementKind) -> bool
    ensures { result ≡ has_tests k }
{
    facts_of(k) & TESTS != 0
}

fn inserts(k: StatementKind) -> bool
    ensures { result ≡ inserts k }
{
    matches!(k, StatementKind::Is)
}

fn deletes(k: StatementKind) -> bool
    ensures { result ≡ deletes k }
{
    matches!(k, StatementKind::Kd | StatementKind::Pd)
}

// ---- two sets

fn is_there(c: SetClass) -> bool
    ensures { result ≡ is_there c }
{
    !matches!(c, SetClass::Lacking)
}

fn is_filled(c: SetClass) -> bool
    ensures { result ≡ is_filled c }
{
    matches!(c, SetClass::Filled | SetClass::Whole)
}

fn is_whole(c: SetClass) -> bool
    ensures { result ≡ is_whole c }
{
    matches!(c, SetClass::Whole)
}

// A chance, but where a kind rules the letter out.
fn unless(out: bool, chance: Chance) -> Chance
    ensures { result ≡ cond out Impossible chance }
{
    if out { Chance::Impossible } else { chance }
}

// A chance, where what it needs is there.
fn needing(there: bool, chance: Chance) -> Chance
    ensures { result ≡ cond there chance Impossible }
{
    if there { chance } else { Chance::Impossible }
}

// A chance, but where something is enough.
fn or_certain(enough: bool, chance: Chance) -> Chance
    ensures { result ≡ cond enough Certain chance }
{
    if enough { Chance::Certain } else { chance }
}

// Whether two sets meet: never where one is not there, always where one is the whole relation and the other never empty.
fn met(a: SetClass, b: SetClass) -> Chance
    ensures { result ≡ meeting a b }
{
    let sure = (is_whole(a) & is_filled(b)) | (is_filled(a) & is_whole(b));
    needing(is_there(a) & is_there(b), or_certain(sure, Chance::Hanging))
}

// ---- the letters

// EA: two writes that meet, the first no delete, the second no insert.
fn chance_a(k: StatementKind, l: StatementKind) -> Chance
    ensures { Means Letter.A k l result }
{
    unless(deletes(k) | inserts(l), met(writes_of(k), writes_of(l)))
}

// EB: a write, no delete, that meets a read.
fn chance_b(k: StatementKind, l: StatementKind) -> Chance
    ensures { Means Letter.B k l result }
{
    unless(deletes(k), met(writes_of(k), reads_of(l)))
}

// EC: a kind that tests after an insert or delete, or tests that meet a write.
fn chance_c(k: StatementKind, l: StatementKind) -> Chance
    ensures { Means Letter.C k l result }
{
    let meet = met(writes_of(k), tests_of(l));
    needing(has_tests(l), or_certain(inserts(k) | deletes(k), meet))
}

// ED: a read that meets a write, no insert.
fn chance_d(k: StatementKind, l: StatementKind) -> Chance
    ensures { Means Letter.D k l result }
{
    unless(inserts(l), met(reads_of(k), writes_of(l)))
}

// EE: as EC, the other way round.
fn chance_e(k: StatementKind, l: StatementKind) -> Chance
    ensures { Means Letter.E k l result }
{
    chance_c(l, k)
}

// The letters between two kinds, over all sets that the rules allow them on one relation.
pub fn entry_of(k: StatementKind, l: StatementKind) -> Entry
    ensures { EntryMeans k l result }
{
    Entry {
        a: chance_a(k, l),
        b: chance_b(k, l),
        c: chance_c(k, l),
        d: chance_d(k, l),
        e: chance_e(k, l),
    }
}
