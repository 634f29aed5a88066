// The cells of a workload value that no line uses.
#![tactic(auto)]

ghost use Rattle.std.specs.Prelude.{◌≡◌, drop};
ghost use Rattle.spec_base.specs.Basic.{all};
ghost use Rattle.value_cells.specs.Cells.{is_empty};

use spec_text::{Line, Workload};
use value_unused::UNUSED;

// The cell holds the unused line.
fn is_empty(l: Line) -> bool
    ensures { result ≡ is_empty l }
{
    l == UNUSED
}

// The cells after the lines are empty.
pub fn rest_empty(w: Workload) -> bool
    ensures { result ≡ all is_empty (drop w.count w.lines) }
{
    for i in w.count..spec_text::CELLS {
        if !is_empty(w.lines[i]) {
            return false;
        }
    }
    true
}
