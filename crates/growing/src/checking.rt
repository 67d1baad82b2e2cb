// What growing checks of what it is handed, before it writes anything.
ghost use Rattle.std.specs.Prelude.{◌≡◌};
ghost use Rattle.std.specs.Result.{result_err};
ghost use Rattle.matrix.specs.Lent.{pattern_of};
ghost use Rattle.growing.specs.Verdicts.{sizes_fault, lengths_fault, seed_fault, growing_fault};

use crate::Seeding;
use checks::{Check, Fault, Layer};
use matrix::pattern::Matrix;
use matrix::sizes::Size;
use matrix::tables::Table;

fn check_sizes(matrix: &Matrix, seeding: &Seeding) -> Result<(), Fault>
    ensures { result_err result ≡ sizes_fault (pattern_of matrix.now) seeding.now.sweeps seeding.now.tiles seeding.now.seed_sweep }
{
    Size::Rows(matrix.rows).check(Layer::Matrix)?;
    Size::Entries(matrix.entries).check(Layer::Matrix)?;
    Size::Sweeps(seeding.sweeps).check(Layer::Matrix)?;
    Size::Tiles(seeding.tiles).check(Layer::Matrix)?;
    Size::SeedSweep(seeding.seed_sweep, seeding.sweeps).check(Layer::Matrix)
}

// `cells` and `marked` are the lengths of the tile table and of the marks.
fn check_lengths(
    matrix: &Matrix,
    seeding: &Seeding,
    cells: usize,
    marked: usize,
) -> Result<(), Fault>
    ensures { result_err result ≡ lengths_fault (pattern_of matrix.now) seeding.now.sweeps seeding.now.seed.now cells marked }
{
    let rows = matrix.rows as usize;
    let entries = matrix.entries as usize;
    let sweeps = seeding.sweeps as usize;
    Table::RowStarts.check_length(matrix.starts.len(), rows + 1, Layer::Matrix)?;
    Table::Columns.check_length(matrix.columns.len(), entries, Layer::Matrix)?;
    Table::Seed.check_length(seeding.seed.len(), rows, Layer::Matrix)?;
    Table::TileTable.check_length(cells, sweeps * rows, Layer::Matrix)?;
    Table::Marks.check_length(marked, entries, Layer::Matrix)
}

// Kept: the check of a plan's tiles has another check and another layer, and a shared one would take both.
fn check_seed(tiles: u32, seed: &[u8]) -> Result<(), Fault>
    ensures { result_err result ≡ seed_fault tiles seed.now }
{
    for (row, tile) in seed.iter().enumerate() {
        Check::Seed.refuse_if(u32::from(*tile) >= tiles, row, Layer::Matrix)?;
    }
    Ok(())
}

// Sizes, lengths, the matrix, the seed: the first that fails, at its lowest place.
pub(crate) fn check(
    matrix: &Matrix,
    seeding: &Seeding,
    cells: usize,
    marked: usize,
) -> Result<(), Fault>
    ensures { result_err result ≡ growing_fault (pattern_of matrix.now) seeding.now.sweeps seeding.now.tiles seeding.now.seed_sweep seeding.now.seed.now cells marked }
{
    check_sizes(matrix, seeding)?;
    check_lengths(matrix, seeding, cells, marked)?;
    matrix.check(Layer::Matrix)?;
    check_seed(seeding.tiles, seeding.seed)
}
