// Why two steps of a walk, the second of them back, are dangerous: which of the three reasons of W4 hold.
#![tactic(auto)]

ghost use Rattle.std.specs.Prelude.{◌≡◌};
ghost use Rattle.spec_graph.specs.Graph.{Graph};
ghost use Rattle.spec_graph.specs.Walk.{Step};
ghost use Rattle.walk_reason.specs.Reason.{reasons_of, SaidOf};

use edge_kinds::{LOOSE, kind_has};
use spec_text::StatementKind;

// Whether the pair is dangerous, and the reasons: the first edge is back; the second leaves at an earlier place than the first enters; the first
// leaves a statement of kind ks, ps, pu or pd.
#[derive(Clone, Copy)]
pub struct Reasons {
    pub dangerous: bool,
    pub back: bool,
    pub earlier: bool,
    pub loose: bool,
}

// The reasons of a pair, by what they hang on: of the first step the kind of the statement that it leaves, the place that it enters and its flow, of
// the second the place that it leaves and its flow. A flow is 0 for forward and another number for back, as in the area of a walk.
pub fn pair_reasons(
    left: StatementKind,
    enters: u64,
    flow: u64,
    leaves: u64,
    following: u64,
) -> Reasons
    ensures { (g : Graph) (e c : Step) → SaidOf left enters flow leaves following g e c → result ≡ reasons_of g (e, c) }
{
    let back = flow != 0;
    let earlier = leaves < enters;
    let loose = kind_has(left, LOOSE);
    Reasons {
        dangerous: (following != 0) & (back | earlier | loose),
        back,
        earlier,
        loose,
    }
}
