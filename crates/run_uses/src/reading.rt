// What closing answered, read.
ghost use Rattle.std.specs.Prelude.{◌≡◌, false, [], ◌∷◌, IfOk};
ghost use Rattle.std.specs.Result.{result_err};
ghost use Rattle.checks.specs.Verdicts.{first_fault, unless_refused};
ghost use Rattle.plans.specs.Held.{tiling_held};
ghost use Rattle.runs.specs.Calls.{beginning_fault, tile_fault, points_of, tile_swept};
ghost use Rattle.runs.specs.Held.{equations_held};

use arithmetic::Arithmetic;
use checks::Fault;
use runs::run::Run;
use runs::system::TiledSystem;

// Calls one tile, closes the run and answers the points that it updated: none where the call is refused.
pub fn points_of_one_call<K: Arithmetic>(
    system: &TiledSystem<'_, K>,
    vector: &mut [K::Value],
    number: u32,
) -> Result<u32, Fault>
    ensures answer { result_err result ≡ beginning_fault (K.means system.now.arithmetic.now) (tiling_held system.now.plan.now).pattern system.now.coefficients.now system.now.right_hand_side.now vector.old }
    ensures count { IfOk result (λ n. n ≡ unless_refused (tile_fault (tiling_held system.now.plan.now) (λ _. false) number) (points_of (tiling_held system.now.plan.now) number) 0) }
    ensures values { vector.new ≡ unless_refused (first_fault (result_err result ∷ tile_fault (tiling_held system.now.plan.now) (λ _. false) number ∷ [])) (tile_swept (K.means system.now.arithmetic.now) (equations_held system.now) (tiling_held system.now.plan.now) number vector.old) vector.old }
{
    let mut run = Run::begin(system, vector)?;
    let _ = run.tile(system, vector, number);
    let closing = run.close();
    Ok(closing.points)
}
