// A plan that has passed all of opening's checks.
ghost use Rattle.std.specs.Prelude.{◌≡◌, true};
ghost use Rattle.plans.specs.Tilings.{lawful, schedule_of, schedule_starts_of};
ghost use Rattle.plans.specs.Words.{wait_words_of};
ghost use Rattle.plans.specs.Lent.{tiling_of};

use crate::lent::Layout;
use crate::table::TileTable;

pub mod opening;
pub mod reading;

#[derive(Drop)]
pub struct Plan<'a> {
    table: TileTable<'a>,
    layout: Layout<'a>,
    ghost rises: { lawful (tiling_of table) ≡ true },
    ghost scheduled: { layout.schedule.now ≡ schedule_of (tiling_of table) },
    ghost started: { layout.starts.now ≡ schedule_starts_of (tiling_of table) },
    ghost waiting: { layout.words.now ≡ wait_words_of (tiling_of table) },
}
