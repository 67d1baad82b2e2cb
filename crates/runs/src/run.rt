// A run: sizes, done tiles and updated points.
ghost use Rattle.std.specs.Prelude.{◌*◌, ◌≤◌, count_by};
ghost use Rattle.checks.specs.Lists.{upto};
ghost use Rattle.plans.specs.Words.{bit};

pub mod beginning;
pub mod calling;
pub mod closing;
pub(crate) mod tile_set;

use self::tile_set::TileSet;

// It cannot be copied, made but by beginning, or let go but by closing.
pub struct Run {
    rows: u32,
    entries: u32,
    sweeps: u32,
    tiles: u32,
    done: TileSet,
    points: u32,
    ghost counted: { tiles ≤ 64 },
    // no more than T * R points for each done tile
    ghost few: { points ≤ 16777216 * count_by (bit done) (upto 64) },
}
