// Lists of row numbers.
ghost use Rattle.std.specs.Prelude.{◌≡◌, ℕ, ◌<◌, length};
ghost use Rattle.checks.specs.Lists.{at};

// R row numbers, each below R.
// Kept: R stands beside the list as a u32, as the sizes are everywhere, and its length need not be cast.
#[derive(Clone, Copy)]
pub(crate) struct RowNumbers<'a> {
    pub(crate) rows: u32,
    pub(crate) list: &'a [u32],
    ghost all: { length list.now ≡ rows },
    ghost within: { (i : ℕ) → i < rows → at list.now i < rows },
}
