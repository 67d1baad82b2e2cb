// A tile call whose fault is passed on.
ghost use Rattle.std.specs.Prelude.{◌≡◌, false, [], ◌∷◌, IfOk};
ghost use Rattle.std.specs.Result.{result_err};
ghost use Rattle.checks.specs.Verdicts.{first_fault, unless_refused};
ghost use Rattle.plans.specs.Held.{tiling_held};
ghost use Rattle.runs.specs.Calls.{beginning_fault, tile_fault, tile_swept, advanced};
ghost use Rattle.runs.specs.Held.{equations_held, closing_of};

use arithmetic::Arithmetic;
use checks::Fault;
use runs::run::Run;
use runs::run::closing::Closing;
use runs::system::TiledSystem;

// Calls one tile. A refused call's run is closed, cut short, before the fault is passed on.
pub fn call_once<K: Arithmetic>(
    system: &TiledSystem<'_, K>,
    vector: &mut [K::Value],
    number: u32,
) -> Result<Closing, Fault>
    ensures answer { result_err result ≡ first_fault (beginning_fault (K.means system.now.arithmetic.now) (tiling_held system.now.plan.now).pattern system.now.coefficients.now system.now.right_hand_side.now vector.old ∷ tile_fault (tiling_held system.now.plan.now) (λ _. false) number ∷ []) }
    ensures closing { IfOk result (λ closing. closing ≡ closing_of (tiling_held system.now.plan.now).count (advanced (tiling_held system.now.plan.now) number (record { done = 0; points = 0 }))) }
    ensures values { vector.new ≡ unless_refused (result_err result) (tile_swept (K.means system.now.arithmetic.now) (equations_held system.now) (tiling_held system.now.plan.now) number vector.old) vector.old }
{
    let mut run = Run::begin(system, vector)?;
    let answer = run.tile(system, vector, number);
    let closing = run.close();
    answer?;
    Ok(closing)
}
