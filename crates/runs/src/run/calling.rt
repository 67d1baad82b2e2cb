// Tile calls.
ghost use Rattle.std.specs.Prelude.{◌≡◌, ℕ, ◌<◌, List, [], ◌∷◌, ◌++◌, length, IfOk, fold};
ghost use Rattle.std.specs.Result.{result_err};
ghost use Rattle.checks.specs.Verdicts.{unless_refused};
ghost use Rattle.arithmetic.specs.Sweeps.{updated};
ghost use Rattle.arithmetic.specs.Lent.{equations_of};
ghost use Rattle.plans.specs.Words.{bit};
ghost use Rattle.plans.specs.Held.{tiling_held};
ghost use Rattle.runs.specs.Calls.{sizes_of, differing_fault, tile_fault, call_fault, points_of, tile_swept, advanced};
ghost use Rattle.runs.specs.Held.{sizes_held, progress_held, equations_held};
ghost use Rattle.runs.specs.Histories.{Reached, after};

use super::Run;
use super::tile_set::TileSet;
use crate::system::TiledSystem;
use arithmetic::Arithmetic;
use arithmetic::sweeping::update;
use arithmetic::system::System;
use checks::{Check, Fault, Layer};
use plans::plan::Plan;

// Updates the rows of a list in turn.
fn update_rows<K: Arithmetic>(
    arithmetic: &K,
    equations: &System<'_, K::Coefficient, K::Value>,
    rows: &[u32],
    vector: &mut [K::Value],
)
    ensures { vector.new ≡ fold (updated (K.means arithmetic.now) (equations_of equations.now)) vector.old rows.now }
{
    for row in rows {
        update(arithmetic, equations, *row, vector);
    }
}

// Updates a tile's points, sweep by sweep and rows rising.
fn sweep_tile<K: Arithmetic>(system: &TiledSystem<'_, K>, number: u32, vector: &mut [K::Value])
    requires { number < (tiling_held system.now.plan.now).count }
    ensures { vector.new ≡ tile_swept (K.means system.now.arithmetic.now) (equations_held system.now) (tiling_held system.now.plan.now) number vector.old }
{
    let equations = system.equations();
    for sweep in 0..system.plan.sweeps() {
        let rows = system.plan.part(number, sweep);
        update_rows(system.arithmetic, &equations, rows, vector);
    }
}

impl Run {
    fn check_sizes(&self, plan: &Plan<'_>) -> Result<(), Fault>
        ensures { result_err result ≡ differing_fault (sizes_held self.now) (sizes_of (tiling_held plan.now)) }
    {
        Check::Size.refuse_if(self.rows != plan.rows(), 1, Layer::Run)?;
        Check::Size.refuse_if(self.entries != plan.entries(), 2, Layer::Run)?;
        Check::Size.refuse_if(self.sweeps != plan.sweeps(), 3, Layer::Run)?;
        Check::Size.refuse_if(self.tiles != plan.tiles(), 4, Layer::Run)
    }

    fn check_tile(&self, plan: &Plan<'_>, number: u32) -> Result<(), Fault>
        ensures { result_err result ≡ tile_fault (tiling_held plan.now) (bit self.now.done) number }
    {
        let tiles = plan.tiles();
        let place = number as usize;
        Check::NoSuchTile.refuse_if(number >= tiles, place, Layer::Run)?;
        Check::TileDone.refuse_if(self.done.has(number), place, Layer::Run)?;
        TileSet(plan.wait_word(number)).check_done(self.done, tiles)
    }

    fn check_call<K: Arithmetic>(
        &self,
        system: &TiledSystem<'_, K>,
        vector: usize,
        number: u32,
    ) -> Result<(), Fault>
        ensures { result_err result ≡ call_fault (sizes_held self.now) self.now.done (tiling_held system.now.plan.now) (length system.now.coefficients.now) (length system.now.right_hand_side.now) vector number }
    {
        self.check_sizes(system.plan)?;
        system.check_lengths(vector)?;
        self.check_tile(system.plan, number)
    }

    // Calls a tile: updates its points and answers how many, or refuses and changes nothing.
    pub fn tile<K: Arithmetic>(
        &mut self,
        system: &TiledSystem<'_, K>,
        vector: &mut [K::Value],
        number: u32,
    ) -> Result<u32, Fault>
        ensures answer { result_err result ≡ call_fault (sizes_held self.old) self.old.done (tiling_held system.now.plan.now) (length system.now.coefficients.now) (length system.now.right_hand_side.now) (length vector.old) number }
        ensures count { IfOk result (λ n. n ≡ points_of (tiling_held system.now.plan.now) number) }
        ensures sizes { sizes_held self.new ≡ sizes_held self.old }
        ensures progress { progress_held self.new ≡ unless_refused (result_err result) (advanced (tiling_held system.now.plan.now) number (progress_held self.old)) (progress_held self.old) }
        ensures values { vector.new ≡ unless_refused (result_err result) (tile_swept (K.means system.now.arithmetic.now) (equations_held system.now) (tiling_held system.now.plan.now) number vector.old) vector.old }
        ensures refusals { (start : List K.Value) (calls : List ℕ) → Reached (K.means system.now.arithmetic.now) (tiling_held system.now.plan.now) system.now.coefficients.now system.now.right_hand_side.now start calls self.old vector.old → result_err result ≡ tile_fault (tiling_held system.now.plan.now) (after (K.means system.now.arithmetic.now) (tiling_held system.now.plan.now) system.now.coefficients.now system.now.right_hand_side.now start calls).done number }
        ensures history { (start : List K.Value) (calls : List ℕ) → Reached (K.means system.now.arithmetic.now) (tiling_held system.now.plan.now) system.now.coefficients.now system.now.right_hand_side.now start calls self.old vector.old → Reached (K.means system.now.arithmetic.now) (tiling_held system.now.plan.now) system.now.coefficients.now system.now.right_hand_side.now start (calls ++ number ∷ []) self.new vector.new }
    {
        self.check_call(system, vector.len(), number)?;
        sweep_tile(system, number, vector);
        let count = system.plan.tile_points(number) as u32;
        self.done.insert(number);
        self.points += count;
        Ok(count)
    }
}
