// The lines of a grown tile table.
ghost use Rattle.std.specs.Prelude.{◌≡◌, ◌*◌, ◌/◌, ◌<◌, ◌++◌, length, IfOk, string_bytes, OnOk};
ghost use Rattle.std.specs.List.{flat_map};
ghost use Rattle.tile_report.specs.Tiles.{cell, sweep_line, sweeps_text, tiles_text};

use listing::headings::heading;
use std::alloc::{AllocError, Global};

fn push_cells(text: &mut String, cells: &[u8]) -> Result<(), AllocError>
    ensures { OnOk result (string_bytes text.new ≡ string_bytes text.old ++ flat_map cell cells.now) }
{
    for tile in cells {
        write!(text, " {tile}")?;
    }
    Ok(())
}

fn push_sweep(text: &mut String, sweep: usize, cells: &[u8]) -> Result<(), AllocError>
    ensures { OnOk result (string_bytes text.new ≡ string_bytes text.old ++ sweep_line sweep cells.now) }
{
    write!(text, "sweep {sweep} tiles")?;
    push_cells(text, cells)?;
    writeln!(text)
}

fn push_sweeps(text: &mut String, rows: usize, table: &[u8]) -> Result<(), AllocError>
    requires some { 0 < rows }
    ensures { OnOk result (string_bytes text.new ≡ string_bytes text.old ++ sweeps_text rows table.now (length table.now / rows)) }
{
    for (sweep, cells) in table.chunks_exact(rows).enumerate() {
        push_sweep(text, sweep + 1, cells)?;
    }
    Ok(())
}

// The listing of a tile table.
pub(crate) fn tiles_listing(
    heap: Global,
    rows: u32,
    sweeps: u32,
    tiles: u32,
    table: &[u8],
) -> Result<String, AllocError>
    requires some { 0 < rows }
    requires whole { length table.now ≡ sweeps * rows }
    ensures { IfOk result (λ text. string_bytes text ≡ tiles_text rows sweeps tiles table.now) }
{
    let mut text = heading(heap, rows, sweeps, tiles)?;
    push_sweeps(&mut text, rows as usize, table)?;
    Ok(text)
}
