// A tile table with its matrix and sizes, all of which have been checked.
ghost use Rattle.std.specs.Prelude.{◌≡◌, false, is_some};
ghost use Rattle.checks.specs.declared.Layer.TheVariants.{Plan as PlanLayer};
ghost use Rattle.matrix.specs.Patterns.{matrix_fault};
ghost use Rattle.matrix.specs.Lent.{pattern_of};
ghost use Rattle.plans.specs.Checked.{Sized, Counted, Long, Below};

use crate::lent::Tiling;

pub mod checking;
pub mod comparing;
pub mod links;
pub mod stretches;

#[derive(Clone, Copy)]
pub struct TileTable<'a> {
    pub tiling: Tiling<'a>,
    ghost sized: { Sized tiling.matrix },
    ghost counted: { Counted tiling },
    ghost long: { Long tiling },
    ghost accepted: { is_some (matrix_fault PlanLayer (pattern_of tiling.matrix)) ≡ false },
    ghost below: { Below tiling },
}
