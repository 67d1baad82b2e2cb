// The first line of a listing of tiles.
ghost use Rattle.std.specs.Prelude.{◌≡◌, IfOk, string_bytes};
ghost use Rattle.listing.specs.Lines.{heading as heading_of};

use std::alloc::{AllocError, Global};

pub fn heading(heap: Global, rows: u32, sweeps: u32, tiles: u32) -> Result<String, AllocError>
    ensures { IfOk result (λ text. string_bytes text ≡ heading_of rows sweeps tiles) }
{
    format!(in heap; "rows {rows} sweeps {sweeps} tiles {tiles}\n")
}
