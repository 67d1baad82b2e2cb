// A whole run: begun, any list of tile calls, closed.
ghost use Rattle.std.specs.Prelude.{◌≡◌, IfOk, OnErr};
ghost use Rattle.std.specs.Result.{result_err};
ghost use Rattle.plans.specs.Held.{tiling_held};
ghost use Rattle.runs.specs.Calls.{beginning_fault};
ghost use Rattle.runs.specs.Law.{Law};

use crate::run::Run;
use crate::run::closing::Closing;
use crate::system::TiledSystem;
use arithmetic::Arithmetic;
use checks::Fault;

// Calls the tiles of a list in turn, whatever each call answers, and closes the run.
pub fn run_tiles<K: Arithmetic>(
    system: &TiledSystem<'_, K>,
    vector: &mut [K::Value],
    calls: &[u32],
) -> Result<Closing, Fault>
    ensures answer { result_err result ≡ beginning_fault (K.means system.now.arithmetic.now) (tiling_held system.now.plan.now).pattern system.now.coefficients.now system.now.right_hand_side.now vector.old }
    ensures refused { OnErr result (vector.new ≡ vector.old) }
    ensures law { IfOk result (λ closing. Law (K.means system.now.arithmetic.now) (tiling_held system.now.plan.now) system.now.coefficients.now system.now.right_hand_side.now vector.old calls.now closing vector.new) }
{
    system.plan.stands();
    let mut run = Run::begin(system, vector)?;
    for number in calls {
        let _ = run.tile(system, vector, *number);
    }
    Ok(run.close())
}
