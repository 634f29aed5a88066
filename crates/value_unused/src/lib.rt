// A value that holds no line: what reading and making a part begin with, and what a refused text is read into.
#![tactic(auto)]

ghost use Rattle.std.specs.Prelude.{◌≡◌};
ghost use Rattle.value_unused.specs.Unused.{unused_cells};

use spec_text::{Line, LineKind, Workload};

// The unused line: a line that closes a block and nothing else, and six zeros.
pub const UNUSED: Line = Line {
    kind: LineKind::En,
    id: 0,
    rel: 0,
    to: 0,
    reads: 0,
    writes: 0,
    tests: 0,
};

// A count over cells that all hold the unused line: 0 of no lines, one over the cells of what no text gives.
pub fn unused_cells(count: usize) -> Workload
    ensures { result ≡ unused_cells count }
{
    Workload {
        count,
        lines: [UNUSED; spec_text::CELLS],
    }
}
