// A run over a plan, retold call by call.
ghost use Rattle.std.specs.Prelude.{◌≡◌, ◌*◌, ◌++◌, string_bytes};
ghost use Rattle.plans.specs.Held.{tiling_held};
ghost use Rattle.runs.specs.Calls.{beginning_fault};
ghost use Rattle.runs.specs.Held.{equations_held};
ghost use Rattle.preparing.specs.Failing.{Answers};
ghost use Rattle.replay.specs.Traces.{trace};
ghost use Rattle.replay.specs.Replays.{begun};

use crate::lines::{note_call, note_closing};
use arithmetic::Arithmetic;
use case_file::filed::Filed;
use preparing::failing::Failure;
use runs::run::Run;
use runs::system::TiledSystem;

// Begins a run, calls the tiles of the list whatever each call answers, and closes it.
pub(crate) fn trace_run<'p, F: Filed + Copy, K: Arithmetic<Coefficient = F, Value = F>>(
    text: &mut String,
    system: TiledSystem<'p, K>,
    vector: &mut [F],
    calls: &[u8],
) -> Result<(), Failure>
    ensures { Answers (beginning_fault (K.means system.entry.arithmetic.now) (tiling_held system.entry.plan.now).pattern system.entry.coefficients.now system.entry.right_hand_side.now vector.old) (λ _. string_bytes text.new ≡ string_bytes text.old ++ trace (K.means system.entry.arithmetic.now) (equations_held system.entry) (tiling_held system.entry.plan.now) (2 * F.Filed.width) F.Filed.printed (begun vector.old) calls.now) result }
{
    let mut run = Run::begin(&system, vector)?;
    for number in calls {
        let tile = *number as u32;
        let answer = run.tile(&system, vector, tile);
        match note_call(text, tile, answer, vector) {
            Ok(()) => {}
            Err(error) => {
                let _ = run.close();
                return Err(error.into());
            }
        }
    }
    note_closing(text, run.close())?;
    Ok(())
}
