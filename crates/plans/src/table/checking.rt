// The checks that laying out and opening share.
ghost use Rattle.std.specs.Prelude.{◌≡◌, OnOk, IfOk};
ghost use Rattle.std.specs.Result.{result_err};
ghost use Rattle.plans.specs.Opening.{sizes_fault, lengths_fault, tiles_fault, laying_out_fault};
ghost use Rattle.plans.specs.Checked.{Sized, Counted, Long, Laid, Below};
ghost use Rattle.plans.specs.Lent.{tiling_lent};

use super::TileTable;
use crate::lent::Tiling;
use checks::{Check, Fault, Layer};
use matrix::sizes::Size;
use matrix::tables::Table;

// How long the tables laid out are.
#[derive(Clone, Copy)]
pub struct Lengths {
    pub schedule: usize,
    pub starts: usize,
    pub words: usize,
}

fn check_sizes(tiling: &Tiling) -> Result<(), Fault>
    ensures fault { result_err result ≡ sizes_fault (tiling_lent tiling.now) }
    ensures sized { OnOk result (Sized tiling.now.matrix) }
    ensures counted { OnOk result (Counted tiling.now) }
{
    Size::Rows(tiling.matrix.rows).check(Layer::Plan)?;
    Size::Entries(tiling.matrix.entries).check(Layer::Plan)?;
    Size::Sweeps(tiling.sweeps).check(Layer::Plan)?;
    Size::Tiles(tiling.tiles).check(Layer::Plan)
}

fn check_lengths(tiling: &Tiling, lengths: Lengths) -> Result<(), Fault>
    ensures fault { result_err result ≡ lengths_fault (tiling_lent tiling.now) lengths.schedule lengths.starts lengths.words }
    ensures laid { OnOk result (Laid tiling.now lengths.schedule lengths.starts lengths.words) }
    ensures long { OnOk result (Long tiling.now) }
{
    let matrix = &tiling.matrix;
    let (rows, entries) = (matrix.rows as usize, matrix.entries as usize);
    let (sweeps, tiles) = (tiling.sweeps as usize, tiling.tiles as usize);
    Table::Schedule.check_length(lengths.schedule, sweeps * rows, Layer::Plan)?;
    Table::ScheduleStarts.check_length(lengths.starts, tiles * sweeps + 1, Layer::Plan)?;
    Table::WaitWords.check_length(lengths.words, tiles, Layer::Plan)?;
    Table::NewRowStarts.check_length(matrix.starts.len(), rows + 1, Layer::Plan)?;
    Table::NewColumns.check_length(matrix.columns.len(), entries, Layer::Plan)?;
    Table::NewTileTable.check_length(tiling.cells.len(), sweeps * rows, Layer::Plan)
}

// Kept: the check of a seed has another check and another layer, and a shared one would take both.
fn check_tiles(tiling: &Tiling) -> Result<(), Fault>
    ensures fault { result_err result ≡ tiles_fault tiling.now.tiles tiling.now.cells.now }
    ensures below { OnOk result (Below tiling.now) }
{
    for (point, tile) in tiling.cells.iter().enumerate() {
        Check::Tile.refuse_if(u32::from(*tile) >= tiling.tiles, point, Layer::Plan)?;
    }
    Ok(())
}

impl<'a> TileTable<'a> {
    // Sizes, lengths, matrix and tiles.
    pub(crate) fn check(tiling: Tiling<'a>, lengths: Lengths) -> Result<TileTable<'a>, Fault>
        ensures fault { result_err result ≡ laying_out_fault (tiling_lent tiling.entry) lengths.schedule lengths.starts lengths.words }
        ensures laid { OnOk result (Laid tiling.entry lengths.schedule lengths.starts lengths.words) }
        ensures table { IfOk result (λ table. table.tiling ≡ tiling.entry) }
    {
        check_sizes(&tiling)?;
        check_lengths(&tiling, lengths)?;
        tiling.matrix.check(Layer::Plan)?;
        check_tiles(&tiling)?;
        Ok(TileTable { tiling })
    }
}
