// A row that edges leave.

ghost use Rattle.std.specs.Prelude.{◌≡◌};
ghost use Rattle.spec_base.specs.Basic.{meets};
ghost use Rattle.edge_kinds.specs.Kinds.{kind_facts, loose_bit};
ghost use Rattle.edge_pair.specs.PairWords.{left_of, never_back};
ghost use Rattle.place_row.specs.RowTable.{row_count};
ghost use Rattle.walk_pick.specs.Runs.{Worked};

use edge_pair::Left;
use place_row::Row;

// A row that edges leave, in its table with the words of all rows: what hangs on this row alone is worked out once for all rows that it meets. It is
// told how many rows there are, the row's words as one that is left, whether back edges never leave it and whether it is loose (W4).
#[derive(Clone, Copy)]
pub(crate) struct Leaving<'a> {
    pub table: &'a [u64],
    pub count: usize,
    pub work: &'a [u64],
    pub row: Row,
    pub words: Left,
    pub never: bool,
    pub loose: bool,
    ghost counted: { count ≡ row_count table.now },
    ghost worked: { Worked table.now count count work.now },
    ghost words_are: { words ≡ left_of row },
    ghost never_is: { never ≡ never_back words },
    ghost loose_is: { loose ≡ meets (kind_facts row.kind) loose_bit },
}
