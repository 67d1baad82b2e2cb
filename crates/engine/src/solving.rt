// A problem solved tile by tile.
ghost use Rattle.std.specs.Prelude.{◌≡◌};
ghost use Rattle.preparing.specs.Failing.{Answers};
ghost use Rattle.preparing.specs.Held.{posed_by};
ghost use Rattle.engine.specs.Solutions.{solving_fault, solved};
ghost use Rattle.engine.specs.Held.{solved_by};

use crate::running::run_prepared;
use crate::solution::Solution;
use arithmetic::Arithmetic;
use preparing::failing::Failure;
use preparing::figures::Figures;
use preparing::numbered::Ranking;
use preparing::posing::Problem;
use preparing::prepared::{Prepared, prepare};
use std::alloc::Global;

// Grows, ranks, remaps, carries, lays out, opens, begins, calls the tiles 0 to k - 1, closes and carries back.
pub fn solve<K: Arithmetic>(
    heap: Global,
    arithmetic: &K,
    problem: &Problem<'_, K::Coefficient, K::Value>,
) -> Result<Solution<K::Value>, Failure>
    ensures { Answers (solving_fault (K.means arithmetic.now) (posed_by problem.now)) (λ s. solved_by s ≡ solved (K.means arithmetic.now) (posed_by problem.now)) result }
{
    let Prepared {
        ranking,
        tables,
        figures,
        layout,
    } = prepare(heap, problem)?;
    let Figures {
        coefficients,
        right_hand_side,
        mut vector,
    } = figures;
    let tiles = run_prepared(
        heap,
        arithmetic,
        &tables,
        &layout,
        coefficients.as_slice(),
        right_hand_side.as_slice(),
        vector.as_mut_slice(),
    )?;
    let values = ranking.rows_back(heap, problem.system.matrix.rows, vector.as_slice())?;
    let Ranking { ranks, rows: _ } = ranking;
    Ok(Solution {
        ranks,
        tiles,
        values,
    })
}
