// Rows of eight words in an area.
#![tactic(auto)]

ghost use Rattle.std.specs.Prelude.{[], ◌∷◌, ◌≡◌};
ghost use Rattle.word_rows.specs.Put.{row_put};

// Puts a row into an area at a place, where it has room for it. Eight words and no array of them: the parameters are promised so.
pub fn put_row(
    area: &mut [u64],
    at: usize,
    a: u64,
    b: u64,
    c: u64,
    d: u64,
    e: u64,
    f: u64,
    g: u64,
    h: u64,
)
    ensures { area.new ≡ row_put area.old at (a ∷ b ∷ c ∷ d ∷ e ∷ f ∷ g ∷ h ∷ []) }
{
    if area.len() < 8 {
        return;
    }
    if area.len() - 8 < at {
        return;
    }
    area[at] = a;
    area[at + 1] = b;
    area[at + 2] = c;
    area[at + 3] = d;
    area[at + 4] = e;
    area[at + 5] = f;
    area[at + 6] = g;
    area[at + 7] = h;
}
