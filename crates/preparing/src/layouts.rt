// Schedule, starts and wait words in memory from an allocator.
ghost use Rattle.std.specs.Prelude.{◌≡◌, ◌+◌, ◌*◌};
ghost use Rattle.plans.specs.Lent.{tiling_lent};
ghost use Rattle.plans.specs.Opening.{laying_out_fault};
ghost use Rattle.preparing.specs.Failing.{Answers};
ghost use Rattle.preparing.specs.Layouts.{LaysOut};

use crate::failing::Failure;
use plans::layout::lay_out;
use plans::lent;
use plans::lent::Tiling;
use std::alloc::Global;

#[derive(Drop)]
pub struct Layout {
    pub schedule: Vec<u32>,
    pub starts: Vec<u32>,
    pub words: Vec<u64>,
}

impl Layout {
    pub fn lend(&self) -> lent::Layout<'_>
        ensures schedule { result.schedule.now ≡ self.now.schedule.items }
        ensures starts { result.starts.now ≡ self.now.starts.items }
        ensures words { result.words.now ≡ self.now.words.items }
    {
        lent::Layout {
            schedule: self.schedule.as_slice(),
            starts: self.starts.as_slice(),
            words: self.words.as_slice(),
        }
    }
}

pub fn lay_tiles_out(heap: Global, tiling: &Tiling<'_>) -> Result<Layout, Failure>
    ensures { Answers (laying_out_fault (tiling_lent tiling.now) (tiling.now.sweeps * tiling.now.matrix.rows) (tiling.now.tiles * tiling.now.sweeps + 1) tiling.now.tiles) (LaysOut (tiling_lent tiling.now)) result }
{
    let (sweeps, tiles) = (tiling.sweeps as usize, tiling.tiles as usize);
    let mut schedule = vec![in heap; 0u32; sweeps * tiling.matrix.rows as usize]?;
    let mut starts = vec![in heap; 0u32; tiles * sweeps + 1]?;
    let mut words = vec![in heap; 0u64; tiles]?;
    lay_out(
        tiling,
        schedule.as_mut_slice(),
        starts.as_mut_slice(),
        words.as_mut_slice(),
    )?;
    Ok(Layout {
        schedule,
        starts,
        words,
    })
}
