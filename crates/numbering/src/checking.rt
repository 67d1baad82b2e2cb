// What the calls on the numbering refuse, before they write anything.
ghost use Rattle.std.specs.Prelude.{◌≡◌, ◌<◌, length};
ghost use Rattle.std.specs.Result.{result_err};
ghost use Rattle.matrix.specs.Lent.{pattern_of};
ghost use Rattle.checks.specs.Verdicts.{first_fault};
ghost use Rattle.numbering.specs.Refusals.{bad_rank, ranks_fault, order_checks, remap_tables, remap_checks, row_checks, entry_checks};

use crate::Numbering;
use checks::{Check, Fault, Layer};
use matrix::pattern::Matrix;
use matrix::sizes::Size;
use matrix::tables::Table;

// A rank that is not below R, or at which another row stands.
fn is_bad_rank(rows: u32, numbering: &Numbering, row: u32) -> bool
    requires within { row < length numbering.now.ranks.now }
    requires placed { length numbering.now.rows_by_rank.now ≡ rows }
    ensures { result ≡ bad_rank rows numbering.now.ranks.now numbering.now.rows_by_rank.now row }
{
    let rank = numbering.ranks[row as usize];
    rank >= rows || numbering.rows_by_rank[rank as usize] != row
}

fn check_ranks(rows: u32, numbering: &Numbering) -> Result<(), Fault>
    requires ranked { length numbering.now.ranks.now ≡ rows }
    requires placed { length numbering.now.rows_by_rank.now ≡ rows }
    ensures { result_err result ≡ ranks_fault rows numbering.now.ranks.now numbering.now.rows_by_rank.now }
{
    for row in 0..rows {
        let bad = is_bad_rank(rows, numbering, row);
        Check::Rank.refuse_if(bad, row as usize, Layer::Plan)?;
    }
    Ok(())
}

pub(crate) fn check_order(
    rows: u32,
    sweeps: u32,
    tiles: usize,
    ranks: usize,
    rows_by_rank: usize,
    spare: usize,
) -> Result<(), Fault>
    ensures { result_err result ≡ first_fault (order_checks rows sweeps tiles ranks rows_by_rank spare) }
{
    Size::Rows(rows).check(Layer::Plan)?;
    Size::Sweeps(sweeps).check(Layer::Plan)?;
    Table::TileTable.check_length(tiles, sweeps as usize * rows as usize, Layer::Plan)?;
    Table::Ranks.check_length(ranks, rows as usize, Layer::Plan)?;
    Table::RowsByRank.check_length(rows_by_rank, rows as usize, Layer::Plan)?;
    Table::Spare.check_length(spare, rows as usize, Layer::Plan)
}

pub(crate) fn check_rows(
    rows: u32,
    numbering: &Numbering,
    vector: usize,
    new_vector: usize,
) -> Result<(), Fault>
    ensures { result_err result ≡ first_fault (row_checks rows numbering.now.ranks.now numbering.now.rows_by_rank.now vector new_vector) }
{
    Size::Rows(rows).check(Layer::Plan)?;
    Table::Ranks.check_length(numbering.ranks.len(), rows as usize, Layer::Plan)?;
    Table::RowsByRank.check_length(numbering.rows_by_rank.len(), rows as usize, Layer::Plan)?;
    Table::Vector.check_length(vector, rows as usize, Layer::Plan)?;
    Table::NewVector.check_length(new_vector, rows as usize, Layer::Plan)?;
    check_ranks(rows, numbering)
}

pub(crate) fn check_entries(
    matrix: &Matrix,
    numbering: &Numbering,
    coefficients: usize,
    new_coefficients: usize,
) -> Result<(), Fault>
    ensures { result_err result ≡ first_fault (entry_checks matrix.now.rows matrix.now.entries matrix.now.starts.now numbering.now.ranks.now numbering.now.rows_by_rank.now coefficients new_coefficients) }
{
    let rows = matrix.rows as usize;
    let entries = matrix.entries as usize;
    Size::Rows(matrix.rows).check(Layer::Plan)?;
    Size::Entries(matrix.entries).check(Layer::Plan)?;
    Table::RowStarts.check_length(matrix.starts.len(), rows + 1, Layer::Plan)?;
    Table::Ranks.check_length(numbering.ranks.len(), rows, Layer::Plan)?;
    Table::RowsByRank.check_length(numbering.rows_by_rank.len(), rows, Layer::Plan)?;
    Table::Coefficients.check_length(coefficients, entries, Layer::Plan)?;
    Table::NewCoefficients.check_length(new_coefficients, entries, Layer::Plan)?;
    matrix.check_row_starts(Layer::Plan)?;
    check_ranks(matrix.rows, numbering)
}

// The sizes and lengths of remapping.
// Kept: only `remap` has these three lengths; a value of them would be made there once and taken apart here.
fn check_remap_tables(
    matrix: &Matrix,
    sweeps: u32,
    tiles: usize,
    numbering: &Numbering,
    new_starts: usize,
    new_columns: usize,
    new_tiles: usize,
) -> Result<(), Fault>
    ensures { result_err result ≡ first_fault (remap_tables (pattern_of matrix.now) sweeps tiles (length numbering.now.ranks.now) (length numbering.now.rows_by_rank.now) new_starts new_columns new_tiles) }
{
    let rows = matrix.rows as usize;
    let entries = matrix.entries as usize;
    Size::Rows(matrix.rows).check(Layer::Plan)?;
    Size::Entries(matrix.entries).check(Layer::Plan)?;
    Size::Sweeps(sweeps).check(Layer::Plan)?;
    Table::RowStarts.check_length(matrix.starts.len(), rows + 1, Layer::Plan)?;
    Table::Columns.check_length(matrix.columns.len(), entries, Layer::Plan)?;
    Table::TileTable.check_length(tiles, sweeps as usize * rows, Layer::Plan)?;
    Table::Ranks.check_length(numbering.ranks.len(), rows, Layer::Plan)?;
    Table::RowsByRank.check_length(numbering.rows_by_rank.len(), rows, Layer::Plan)?;
    Table::NewRowStarts.check_length(new_starts, rows + 1, Layer::Plan)?;
    Table::NewColumns.check_length(new_columns, entries, Layer::Plan)?;
    Table::NewTileTable.check_length(new_tiles, sweeps as usize * rows, Layer::Plan)
}

pub(crate) fn check_remap(
    matrix: &Matrix,
    sweeps: u32,
    tiles: usize,
    numbering: &Numbering,
    new_starts: usize,
    new_columns: usize,
    new_tiles: usize,
) -> Result<(), Fault>
    ensures { result_err result ≡ first_fault (remap_checks (pattern_of matrix.now) sweeps tiles numbering.now.ranks.now numbering.now.rows_by_rank.now new_starts new_columns new_tiles) }
{
    check_remap_tables(
        matrix,
        sweeps,
        tiles,
        numbering,
        new_starts,
        new_columns,
        new_tiles,
    )?;
    matrix.check(Layer::Plan)?;
    check_ranks(matrix.rows, numbering)
}
