// What a verdict tells: robust or danger with its counts, or a refusal; and which of them it is for what the search for a walk found.
#![tactic(auto)]

ghost use Rattle.std.specs.Prelude.{◌≡◌};
ghost use Rattle.spec_report.specs.State.{counted};
ghost use Rattle.verdict_told.specs.Told.{told, told_by};
ghost use Rattle.verdict_told.specs.Found.{told_for};

use refusal::Fault;

// What a verdict counts: programs, nodes, edges of both flows, and the back edges among them.
#[derive(Clone, Copy, Debug, PartialEq, Eq)]
pub struct Totals {
    pub programs: u64,
    pub nodes: u64,
    pub edges: u64,
    pub back: u64,
}

// The word with its counts, and for danger how many steps the shown walk has. A refusal is the error beside it.
#[derive(Clone, Copy, Debug, PartialEq, Eq)]
pub enum Verdict {
    Robust(Totals),
    Danger(Totals, u64),
}

// The answer for what the search for a walk found: a walk of so many steps, or none; or why there was no search.
#[tactic(auto, unfolding(crate::specs::Found::told_for))]
pub fn judged(
    programs: u64,
    nodes: u64,
    edges: u64,
    back: u64,
    found: Result<Option<usize>, Fault>,
) -> Result<Verdict, Fault>
    ensures { told result ≡ told_for (counted programs nodes edges back) found }
{
    let counts = Totals {
        programs,
        nodes,
        edges,
        back,
    };
    Ok(match found? {
        None => Verdict::Robust(counts),
        Some(steps) => Verdict::Danger(counts, steps as u64),
    })
}

// The same with the number of a refusal, as reports and other languages are told it.
pub fn numbered(v: Result<Verdict, Fault>) -> Result<Verdict, u8>
    ensures { told_by result ≡ told v }
{
    v.map_err(Fault::number)
}
