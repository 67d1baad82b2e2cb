// A case file grown, and what is printed of it.
ghost use Rattle.std.specs.Prelude.{◌≡◌, length, IfOk, string_bytes};
ghost use Rattle.matrix.specs.Lent.{pattern_of};
ghost use Rattle.case_file.specs.Contents.{contents_of};
ghost use Rattle.tile_report.specs.Reports.{grown_text, case_text_of, reported};

use crate::tiles::tiles_listing;
use case_file::reading::Case;
use growing::{Seeding, grow};
use listing::refusals::{check_input, refusal};
use matrix::pattern::Matrix;
use std::alloc::{AllocError, Global};

// The refusal's line, or the listing of the grown table.
fn grown_listing(
    heap: Global,
    matrix: &Matrix<'_>,
    seeding: &Seeding<'_>,
    tile_table: &mut [u8],
    marks: &mut [u8],
) -> Result<String, AllocError>
    ensures { IfOk result (λ text. string_bytes text ≡ grown_text (pattern_of matrix.now) seeding.now.sweeps seeding.now.tiles seeding.now.seed_sweep seeding.now.seed.now (length tile_table.old) (length marks.old)) }
{
    match grow(matrix, seeding, tile_table, marks) {
        Ok(()) => tiles_listing(heap, matrix.rows, seeding.sweeps, seeding.tiles, tile_table),
        Err(fault) => refusal(heap, fault),
    }
}

fn case_text(heap: Global, case: &Case<'_>) -> Result<String, AllocError>
    ensures { IfOk result (λ text. string_bytes text ≡ case_text_of (contents_of case.now)) }
{
    let starts = case.starts.elements::<u32>(heap)?;
    let columns = case.columns.elements::<u32>(heap)?;
    let mut tile_table = vec![in heap; 0u8; case.sweeps as usize * case.rows as usize]?;
    let mut marks = vec![in heap; 0u8; case.entries as usize]?;
    let matrix = Matrix::new(
        case.rows,
        case.entries,
        starts.as_slice(),
        columns.as_slice(),
    );
    let seeding = Seeding {
        sweeps: case.sweeps,
        tiles: case.tiles,
        seed_sweep: case.seed_sweep,
        seed: case.seed.bytes,
    };
    grown_listing(
        heap,
        &matrix,
        &seeding,
        tile_table.as_mut_slice(),
        marks.as_mut_slice(),
    )
}

// What is printed of a file's bytes.
// Kept: reports differ in the text of a case; a shared one would take it as a closure, and say less plainly what is printed.
pub fn report(heap: Global, file: &[u8]) -> Result<String, AllocError>
    ensures { IfOk result (λ text. string_bytes text ≡ reported file.now) }
{
    match check_input(file).and_then(|()| Case::read(file)) {
        Ok(case) => case_text(heap, &case),
        Err(fault) => refusal(heap, fault),
    }
}
