// A plan opened, and its tiles called.
ghost use Rattle.std.specs.Prelude.{◌≡◌, [], ◌∷◌, IfOk};
ghost use Rattle.checks.specs.Lists.{upto};
ghost use Rattle.checks.specs.Verdicts.{first_fault};
ghost use Rattle.arithmetic.specs.Sweeps.{plain};
ghost use Rattle.plans.specs.Held.{tiling_held};
ghost use Rattle.plans.specs.Opening.{opening_fault};
ghost use Rattle.runs.specs.Calls.{beginning_fault};
ghost use Rattle.runs.specs.Held.{equations_with};
ghost use Rattle.preparing.specs.Failing.{Answers};
ghost use Rattle.preparing.specs.Renumbered.{tiling_in};
ghost use Rattle.preparing.specs.Layouts.{tables_in};
ghost use Rattle.engine.specs.Solutions.{tiles_of};

use crate::solution::Tile;
use arithmetic::Arithmetic;
use plans::plan::Plan;
use preparing::failing::Failure;
use preparing::layouts::Layout;
use preparing::numbered::Remapped;
use preparing::prepared::open_tables;
use runs::system::TiledSystem;
use runs::whole::run_tiles;
use std::alloc::{AllocError, Global};

// The tiles 0 to k - 1.
fn all_tiles(heap: Global, tiles: u32) -> Result<Vec<u32>, AllocError>
    ensures { IfOk result (λ v. v.items ≡ upto tiles) }
{
    // Kept: tried as `(0..tiles).collect(heap)`; the proof did not close.
    let mut numbers = Vec::new(heap);
    for tile in 0..tiles {
        numbers.push(tile)?;
    }
    Ok(numbers)
}

fn describe_tiles(heap: Global, plan: &Plan<'_>) -> Result<Vec<Tile>, AllocError>
    ensures { IfOk result (λ v. v.items ≡ tiles_of (tiling_held plan.now)) }
{
    let tile = |number| Tile {
        points: plan.tile_points(number),
        waits: plan.wait_word(number),
    };
    (0..plan.tiles()).map(tile).collect(heap)
}

// Opens what was prepared, calls every tile, and answers what there is to say of each.
// Kept: the run lends two of the figures and writes the third, so a value of the three would be taken apart at once.
pub(crate) fn run_prepared<K: Arithmetic>(
    heap: Global,
    arithmetic: &K,
    tables: &Remapped,
    layout: &Layout,
    coefficients: &[K::Coefficient],
    right_hand_side: &[K::Value],
    vector: &mut [K::Value],
) -> Result<Vec<Tile>, Failure>
    ensures { Answers (first_fault (opening_fault (tables_in tables.now layout.now) ∷ beginning_fault (K.means arithmetic.now) (tiling_in tables.now).pattern coefficients.now right_hand_side.now vector.old ∷ [])) (λ list. (list.items ≡ tiles_of (tiling_in tables.now)) × (vector.new ≡ plain (K.means arithmetic.now) (equations_with (tiling_in tables.now) coefficients.now right_hand_side.now) vector.old tables.now.sweeps)) result }
{
    let mut plan = Plan::built_in();
    open_tables(&mut plan, tables, layout)?;
    plan.stands();
    let calls = all_tiles(heap, tables.tiles)?;
    let system = TiledSystem {
        arithmetic,
        plan: &plan,
        coefficients,
        right_hand_side,
    };
    let _closing = run_tiles(&system, vector, calls.as_slice())?;
    Ok(describe_tiles(heap, &plan)?)
}
