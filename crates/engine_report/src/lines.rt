// The lines of a solution.
ghost use Rattle.std.specs.Prelude.{◌≡◌, ◌*◌, ◌++◌, IfOk, string_bytes, OnOk};
ghost use Rattle.engine.specs.Held.{solved_by};
ghost use Rattle.engine_report.specs.Lines.{tile_line, row_line, tiles_text, rows_text, listing_text};

use case_file::filed::Filed;
use engine::solution::{Solution, Tile};
use listing::digits::{Hexadecimal, ShortHexadecimal};
use listing::headings::heading;
use matrix::pattern::number_at;
use std::alloc::{AllocError, Global};

fn push_tile(text: &mut String, number: usize, tile: Tile) -> Result<(), AllocError>
    ensures { OnOk result (string_bytes text.new ≡ string_bytes text.old ++ tile_line number tile) }
{
    let points = tile.points;
    let waits = ShortHexadecimal(tile.waits);
    writeln!(text, "tile {number} points {points} waits {waits}")
}

fn push_tiles(text: &mut String, tiles: &[Tile]) -> Result<(), AllocError>
    ensures { OnOk result (string_bytes text.new ≡ string_bytes text.old ++ tiles_text tiles.now) }
{
    for (number, tile) in tiles.iter().enumerate() {
        push_tile(text, number, *tile)?;
    }
    Ok(())
}

fn push_row(text: &mut String, row: usize, rank: u32, bits: Hexadecimal) -> Result<(), AllocError>
    ensures { OnOk result (string_bytes text.new ≡ string_bytes text.old ++ row_line bits.digits row rank bits.number) }
{
    writeln!(text, "row {row} rank {rank} value {bits}")
}

fn push_rows<K: Filed + Copy>(
    text: &mut String,
    ranks: &[u32],
    values: &[K],
) -> Result<(), AllocError>
    ensures { OnOk result (string_bytes text.new ≡ string_bytes text.old ++ rows_text (2 * K.Filed.width) K.Filed.printed ranks.now values.now) }
{
    let digits = 2 * K::width() as u8;
    // Kept: a solution may have fewer ranks than values, and its lines then say rank 0.
    for (row, value) in values.iter().enumerate() {
        let number = value.bits();
        push_row(
            text,
            row,
            number_at(ranks, row),
            Hexadecimal { number, digits },
        )?;
    }
    Ok(())
}

fn push_solution<K: Filed + Copy>(
    text: &mut String,
    solution: &Solution<K>,
) -> Result<(), AllocError>
    ensures { OnOk result (string_bytes text.new ≡ (string_bytes text.old ++ tiles_text (solved_by solution.now).tiles) ++ rows_text (2 * K.Filed.width) K.Filed.printed (solved_by solution.now).ranks (solved_by solution.now).values) }
{
    push_tiles(text, solution.tiles.as_slice())?;
    push_rows(text, solution.ranks.as_slice(), solution.values.as_slice())
}

// The listing of a solution.
pub fn solution_listing<K: Filed + Copy>(
    heap: Global,
    rows: u32,
    sweeps: u32,
    tiles: u32,
    solution: &Solution<K>,
) -> Result<String, AllocError>
    ensures { IfOk result (λ text. string_bytes text ≡ listing_text rows sweeps tiles (2 * K.Filed.width) K.Filed.printed (solved_by solution.now)) }
{
    let mut text = heading(heap, rows, sweeps, tiles)?;
    push_solution(&mut text, solution)?;
    Ok(text)
}
