// Where a block's lines end, and which counts of unfoldings are refused.
#![tactic(auto)]

ghost use Rattle.std.specs.Prelude.{◌≡◌};
ghost use Rattle.unfold_laws.specs.Codes.{after};
ghost use Rattle.unfold_bounds.specs.Refused.{refused_by};

use refusal::Fault;
use unfold_laws::{STATEMENTS, UNFOLDINGS, UnfoldingTotals};

// The place after a closing line, where there is one.
#[tactic(auto, unfolding(unfold_laws::specs::Codes::after))]
pub fn line_after(lines: usize, e: usize) -> usize
    ensures { result ≡ after lines e }
{
    if e < lines {
        return e + 1;
    }
    e
}

// The refusal of these totals over an area with so much room, if there is one: too many unfoldings, too many statements, or too short an area.
#[tactic(auto, unfolding(crate::specs::Refused::refused_by, crate::specs::Refused::many_in))]
pub fn totals_refused(t: UnfoldingTotals, room: u64) -> Option<Fault>
    ensures { result ≡ refused_by t room }
{
    if t.count > UNFOLDINGS as u64 {
        return Some(Fault::Unfoldings);
    }
    if t.statements > STATEMENTS {
        return Some(Fault::Unfoldings);
    }
    if room < t.statements {
        return Some(Fault::Area);
    }
    None
}
