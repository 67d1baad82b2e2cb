// The matrix and the tile table in the new numbering.
ghost use Rattle.std.specs.Prelude.{◌≡◌, ℕ, ◌+◌, ◌*◌, ◌^◌, ◌<◌, ◌≤◌, map, length, sum_by};
ghost use Rattle.std.specs.Result.{result_err};
ghost use Rattle.checks.specs.Lists.{at, totals};
ghost use Rattle.checks.specs.Verdicts.{first_fault, unless_refused};
ghost use Rattle.matrix.specs.Lent.{pattern_of};
ghost use Rattle.matrix.specs.Patterns.{row_part};
ghost use Rattle.numbering.specs.Order.{row_length, remapped, remapped_tiles};
ghost use Rattle.numbering.specs.Refusals.{remap_checks};

use crate::Numbering;
use crate::carrying::{gather_entries, gather_rows};
use crate::checking::check_remap;
use crate::rows::RowNumbers;
use checks::Fault;
use matrix::pattern::Matrix;

// The row starts of the rows in the order that `rows` lists them; after the last row none is added.
fn write_starts(matrix: &Matrix, rows: &[u32], new_starts: &mut [u32])
    requires room { length new_starts.old ≡ length rows.now + 1 }
    requires parts { (i : ℕ) → i < length rows.now → length (row_part (pattern_of matrix.now) matrix.now.columns.now (at rows.now i)) ≡ row_length (pattern_of matrix.now) (at rows.now i) }
    requires small { sum_by (row_length (pattern_of matrix.now)) rows.now < 2 ^ 32 }
    ensures { new_starts.new ≡ totals 0 (map (row_length (pattern_of matrix.now)) rows.now) }
{
    let mut left = rows.iter();
    let mut place = 0;
    for start in new_starts.iter_mut() {
        *start = place;
        if let Some(row) = left.next() {
            place += matrix.row(matrix.columns, *row).len() as u32;
        }
    }
}

// Replaces each column by its rank.
fn rank_columns(ranks: &[u32], columns: &mut [u32])
    requires { (e : ℕ) → e < length columns.old → at columns.old e < length ranks.now }
    ensures { columns.new ≡ map (at ranks.now) columns.old }
{
    for column in columns.iter_mut() {
        *column = ranks[*column as usize];
    }
}

// Moves the tiles of each sweep with their rows.
fn move_tiles(rows: &RowNumbers, sweeps: u32, tile_table: &[u8], new_tile_table: &mut [u8])
    requires tiled { length tile_table.now ≡ sweeps * rows.now.rows }
    requires room { length new_tile_table.old ≡ sweeps * rows.now.rows }
    ensures { new_tile_table.new ≡ remapped_tiles rows.now.rows sweeps rows.now.list.now tile_table.now }
{
    let length = rows.rows as usize;
    // Kept: tried with `chunks_exact_mut`; what is written to a chunk is then unknown to the proof.
    for sweep in 0..sweeps as usize {
        let start = sweep * length;
        let end = start + length;
        gather_rows(
            rows,
            &tile_table[start..end],
            &mut new_tile_table[start..end],
        );
    }
}

// The rows in rank order, each with its entries in their stored order and each column replaced by its rank, and the tiles with their rows.
pub fn remap(
    matrix: &Matrix<'_>,
    sweeps: u32,
    tile_table: &[u8],
    numbering: &Numbering<'_>,
    new_starts: &mut [u32],
    new_columns: &mut [u32],
    new_tile_table: &mut [u8],
) -> Result<(), Fault>
    ensures verdict { result_err result ≡ first_fault (remap_checks (pattern_of matrix.now) sweeps (length tile_table.now) numbering.now.ranks.now numbering.now.rows_by_rank.now (length new_starts.old) (length new_columns.old) (length new_tile_table.old)) }
    ensures starts { new_starts.new ≡ unless_refused (result_err result) (remapped (pattern_of matrix.now) numbering.now.ranks.now numbering.now.rows_by_rank.now).starts new_starts.old }
    ensures columns { new_columns.new ≡ unless_refused (result_err result) (remapped (pattern_of matrix.now) numbering.now.ranks.now numbering.now.rows_by_rank.now).columns new_columns.old }
    ensures tiles { new_tile_table.new ≡ unless_refused (result_err result) (remapped_tiles matrix.now.rows sweeps numbering.now.rows_by_rank.now tile_table.now) new_tile_table.old }
{
    check_remap(
        matrix,
        sweeps,
        tile_table.len(),
        numbering,
        new_starts.len(),
        new_columns.len(),
        new_tile_table.len(),
    )?;
    write_starts(matrix, numbering.rows_by_rank, new_starts);
    gather_entries(matrix, numbering.rows_by_rank, matrix.columns, new_columns);
    rank_columns(numbering.ranks, new_columns);
    let rows_by_rank = RowNumbers {
        rows: matrix.rows,
        list: numbering.rows_by_rank,
    };
    move_tiles(&rows_by_rank, sweeps, tile_table, new_tile_table);
    Ok(())
}
