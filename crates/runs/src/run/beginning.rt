// Beginning a run.
ghost use Rattle.std.specs.Prelude.{◌≡◌, [], IfOk};
ghost use Rattle.std.specs.Result.{result_err};
ghost use Rattle.plans.specs.Held.{tiling_held};
ghost use Rattle.runs.specs.Calls.{sizes_of, beginning_fault};
ghost use Rattle.runs.specs.Held.{sizes_held, progress_held};
ghost use Rattle.runs.specs.Histories.{Reached};

use super::Run;
use super::tile_set::TileSet;
use crate::system::TiledSystem;
use arithmetic::Arithmetic;
use arithmetic::admitting::{check_coefficients, check_values};
use checks::{Check, Fault, Layer};

impl Run {
    // A run over a plan, with no tile done.
    pub fn begin<K: Arithmetic>(
        system: &TiledSystem<'_, K>,
        vector: &[K::Value],
    ) -> Result<Run, Fault>
        ensures answer { result_err result ≡ beginning_fault (K.means system.now.arithmetic.now) (tiling_held system.now.plan.now).pattern system.now.coefficients.now system.now.right_hand_side.now vector.now }
        ensures sizes { IfOk result (λ run. sizes_held run ≡ sizes_of (tiling_held system.now.plan.now)) }
        ensures fresh { IfOk result (λ run. progress_held run ≡ record { done = 0; points = 0 }) }
        ensures reached { IfOk result (λ run. Reached (K.means system.now.arithmetic.now) (tiling_held system.now.plan.now) system.now.coefficients.now system.now.right_hand_side.now vector.now [] run vector.now) }
    {
        let matrix = system.plan.matrix();
        system.check_lengths(vector.len())?;
        check_coefficients(system.arithmetic, &matrix, system.coefficients, Layer::Run)?;
        check_values(
            system.arithmetic,
            system.right_hand_side,
            Check::RightHandSide,
            Layer::Run,
        )?;
        check_values(system.arithmetic, vector, Check::Vector, Layer::Run)?;
        Ok(Run {
            rows: system.plan.rows(),
            entries: system.plan.entries(),
            sweeps: system.plan.sweeps(),
            tiles: system.plan.tiles(),
            done: TileSet(0),
            points: 0,
        })
    }
}
