// The rows in the order of their tiles: grown, ordered and remapped.
ghost use Rattle.std.specs.Prelude.{◌≡◌, ◌+◌, ◌*◌, length};
ghost use Rattle.checks.specs.Verdicts.{first_fault};
ghost use Rattle.matrix.specs.Lent.{pattern_of};
ghost use Rattle.growing.specs.Growing.{tile_table_of};
ghost use Rattle.growing.specs.Verdicts.{growing_fault};
ghost use Rattle.numbering.specs.Order.{ranks as ranks_of};
ghost use Rattle.numbering.specs.Refusals.{order_checks, remap_checks};
ghost use Rattle.plans.specs.Lent.{tiling_lent};
ghost use Rattle.preparing.specs.Failing.{Answers};
ghost use Rattle.preparing.specs.Renumbered.{Ranks, Holds, Renumbers, moved, tiling_in};

use crate::failing::Failure;
use growing::{Seeding, grow};
use matrix::pattern::Matrix;
use numbering::Numbering;
use numbering::ordering::order;
use numbering::remapping::remap;
use plans::lent::Tiling;
use std::alloc::Global;

// The rank of each row, and the row of each rank.
#[derive(Drop)]
pub struct Ranking {
    pub ranks: Vec<u32>,
    pub rows: Vec<u32>,
}

impl Ranking {
    pub fn lend(&self) -> Numbering<'_>
        ensures ranks { result.ranks.now ≡ self.now.ranks.items }
        ensures rows { result.rows_by_rank.now ≡ self.now.rows.items }
    {
        Numbering {
            ranks: self.ranks.as_slice(),
            rows_by_rank: self.rows.as_slice(),
        }
    }
}

// The matrix and the tile table in the new numbering.
// Kept: the sizes stand beside the tables as u32, as they are lent, and no length need be cast.
#[derive(Drop)]
pub struct Remapped {
    pub rows: u32,
    pub entries: u32,
    pub sweeps: u32,
    pub tiles: u32,
    pub starts: Vec<u32>,
    pub columns: Vec<u32>,
    pub tile_table: Vec<u8>,
}

impl Remapped {
    pub fn lend(&self) -> Tiling<'_>
        ensures { tiling_lent result ≡ tiling_in self.now }
    {
        let matrix = Matrix::new(
            self.rows,
            self.entries,
            self.starts.as_slice(),
            self.columns.as_slice(),
        );
        Tiling {
            matrix,
            sweeps: self.sweeps,
            tiles: self.tiles,
            cells: self.tile_table.as_slice(),
        }
    }
}

#[derive(Drop)]
pub struct Renumbered {
    pub ranking: Ranking,
    pub tables: Remapped,
}

fn grow_tiles(heap: Global, matrix: &Matrix<'_>, seeding: &Seeding<'_>) -> Result<Vec<u8>, Failure>
    ensures { Answers (growing_fault (pattern_of matrix.now) seeding.now.sweeps seeding.now.tiles seeding.now.seed_sweep seeding.now.seed.now (seeding.now.sweeps * matrix.now.rows) matrix.now.entries) (λ cells. cells.items ≡ tile_table_of (pattern_of matrix.now) seeding.now.sweeps seeding.now.seed_sweep seeding.now.tiles seeding.now.seed.now) result }
{
    let mut tile_table = vec![in heap; 0u8; seeding.sweeps as usize * matrix.rows as usize]?;
    let mut marks = vec![in heap; 0u8; matrix.entries as usize]?;
    grow(
        matrix,
        seeding,
        tile_table.as_mut_slice(),
        marks.as_mut_slice(),
    )?;
    Ok(tile_table)
}

fn rank_rows(heap: Global, rows: u32, sweeps: u32, tile_table: &[u8]) -> Result<Ranking, Failure>
    ensures { Answers (first_fault (order_checks rows sweeps (length tile_table.now) rows rows rows)) (Ranks rows (ranks_of rows sweeps tile_table.now)) result }
{
    let mut ranks = vec![in heap; 0u32; rows as usize]?;
    let mut by_rank = vec![in heap; 0u32; rows as usize]?;
    let mut spare = vec![in heap; 0u32; rows as usize]?;
    order(
        rows,
        sweeps,
        tile_table,
        ranks.as_mut_slice(),
        by_rank.as_mut_slice(),
        spare.as_mut_slice(),
    )?;
    Ok(Ranking {
        ranks,
        rows: by_rank,
    })
}

fn remap_rows(heap: Global, tiling: &Tiling<'_>, ranking: &Ranking) -> Result<Remapped, Failure>
    ensures { Answers (first_fault (remap_checks (pattern_of tiling.now.matrix) tiling.now.sweeps (length tiling.now.cells.now) ranking.now.ranks.items ranking.now.rows.items (tiling.now.matrix.rows + 1) tiling.now.matrix.entries (tiling.now.sweeps * tiling.now.matrix.rows))) (Holds (moved (pattern_of tiling.now.matrix) tiling.now.sweeps tiling.now.tiles tiling.now.cells.now ranking.now.ranks.items ranking.now.rows.items)) result }
{
    let Tiling {
        matrix,
        sweeps,
        tiles,
        cells,
    } = *tiling;
    let mut starts = vec![in heap; 0u32; matrix.rows as usize + 1]?;
    let mut columns = vec![in heap; 0u32; matrix.entries as usize]?;
    let mut tile_table = vec![in heap; 0u8; sweeps as usize * matrix.rows as usize]?;
    remap(
        &matrix,
        sweeps,
        cells,
        &ranking.lend(),
        starts.as_mut_slice(),
        columns.as_mut_slice(),
        tile_table.as_mut_slice(),
    )?;
    Ok(Remapped {
        rows: matrix.rows,
        entries: matrix.entries,
        sweeps,
        tiles,
        starts,
        columns,
        tile_table,
    })
}

// Grown from the seed, ranked and remapped. Nothing is refused but by growing.
pub fn renumber(
    heap: Global,
    matrix: &Matrix<'_>,
    seeding: &Seeding<'_>,
) -> Result<Renumbered, Failure>
    ensures { Answers (growing_fault (pattern_of matrix.now) seeding.now.sweeps seeding.now.tiles seeding.now.seed_sweep seeding.now.seed.now (seeding.now.sweeps * matrix.now.rows) matrix.now.entries) (Renumbers (pattern_of matrix.now) seeding.now.sweeps seeding.now.seed_sweep seeding.now.tiles seeding.now.seed.now) result }
{
    let tile_table = grow_tiles(heap, matrix, seeding)?;
    let ranking = rank_rows(heap, matrix.rows, seeding.sweeps, tile_table.as_slice())?;
    let tiling = Tiling {
        matrix: *matrix,
        sweeps: seeding.sweeps,
        tiles: seeding.tiles,
        cells: tile_table.as_slice(),
    };
    let tables = remap_rows(heap, &tiling, &ranking)?;
    Ok(Renumbered { ranking, tables })
}
