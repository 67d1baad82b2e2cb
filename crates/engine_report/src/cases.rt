// A case's tables in memory, and the problem that they pose.
ghost use Rattle.std.specs.Prelude.{◌≡◌, IfOk};
ghost use Rattle.case_file.specs.Numbers.{big};
ghost use Rattle.case_file.specs.Elements.{elements};
ghost use Rattle.case_file.specs.Contents.{contents_of};
ghost use Rattle.preparing.specs.Held.{posed_by};
ghost use Rattle.engine_report.specs.Cases.{Reads, posed_with};

use arithmetic::system::System;
use case_file::filed::Filed;
use case_file::reading::Case;
use growing::Seeding;
use matrix::pattern::Matrix;
use preparing::posing::Problem;
use std::alloc::{AllocError, Global};

#[derive(Drop)]
pub struct CaseTables<F> {
    pub starts: Vec<u32>,
    pub columns: Vec<u32>,
    pub coefficients: Vec<F>,
    pub right_hand_side: Vec<F>,
    pub vector: Vec<F>,
    pub seed: Vec<u8>,
}

pub fn read_tables<F: Filed + Copy>(
    heap: Global,
    case: &Case<'_>,
) -> Result<CaseTables<F>, AllocError>
    ensures { IfOk result (Reads F.Filed.width F.Filed.filed (contents_of case.now)) }
{
    Ok(CaseTables {
        starts: case.starts.elements::<u32>(heap)?,
        columns: case.columns.elements::<u32>(heap)?,
        coefficients: case.coefficients.elements::<F>(heap)?,
        right_hand_side: case.right_hand_side.elements::<F>(heap)?,
        vector: case.vector.elements::<F>(heap)?,
        seed: case.seed.elements::<u8>(heap)?,
    })
}

// The problem that a case of these tables poses.
pub fn pose<'a, F>(case: &Case<'_>, tables: &'a CaseTables<F>) -> Problem<'a, F, F>
    ensures { posed_by result ≡ posed_with (contents_of case.now) tables.now }
{
    let matrix = Matrix::new(
        case.rows,
        case.entries,
        tables.starts.as_slice(),
        tables.columns.as_slice(),
    );
    Problem {
        system: System::new(
            matrix,
            tables.coefficients.as_slice(),
            tables.right_hand_side.as_slice(),
        ),
        vector: tables.vector.as_slice(),
        seeding: Seeding {
            sweeps: case.sweeps,
            tiles: case.tiles,
            seed_sweep: case.seed_sweep,
            seed: tables.seed.as_slice(),
        },
    }
}
