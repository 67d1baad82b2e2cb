// A case file swept plainly, and what is printed of it.
ghost use Rattle.std.specs.Prelude.{◌≡◌, ◌*◌, IfOk, string_bytes};
ghost use Rattle.arithmetic.specs.Lent.{equations_of};
ghost use Rattle.case_file.specs.Contents.{contents_of};
ghost use Rattle.plain_report.specs.Reports.{system_text, swept_text, kind_text_of, reported};

use crate::rows::plain_listing;
use arithmetic::Arithmetic;
use arithmetic::doubles::Doubles;
use arithmetic::minutes::Minutes;
use arithmetic::sweeping::sweep_plainly;
use arithmetic::system::System;
use case_file::filed::Filed;
use case_file::kinds::Kind;
use case_file::reading::Case;
use listing::refusals::{check_input, refusal};
use matrix::pattern::Matrix;
use std::alloc::{AllocError, Global};

// The refusal's line, or the listing of the swept vector.
fn swept_listing<F: Filed + Copy, K: Arithmetic<Coefficient = F, Value = F>>(
    heap: Global,
    arithmetic: &K,
    system: &System<'_, F, F>,
    sweeps: u32,
    vector: &mut [F],
) -> Result<String, AllocError>
    ensures { IfOk result (λ text. string_bytes text ≡ system_text (K.means arithmetic.now) F.Filed.width F.Filed.printed (equations_of system.now) sweeps vector.old) }
{
    match sweep_plainly(arithmetic, system, sweeps, vector) {
        Ok(()) => plain_listing(heap, sweeps, vector),
        Err(fault) => refusal(heap, fault),
    }
}

// The case swept plainly by its kind's arithmetic.
fn sweep_text<F: Filed + Copy, K: Arithmetic<Coefficient = F, Value = F>>(
    heap: Global,
    arithmetic: &K,
    case: &Case<'_>,
) -> Result<String, AllocError>
    ensures { IfOk result (λ text. string_bytes text ≡ swept_text (K.means arithmetic.now) F.Filed.width F.Filed.filed F.Filed.printed (contents_of case.now)) }
{
    let starts = case.starts.elements::<u32>(heap)?;
    let columns = case.columns.elements::<u32>(heap)?;
    let coefficients = case.coefficients.elements::<F>(heap)?;
    let right_hand_side = case.right_hand_side.elements::<F>(heap)?;
    let mut vector = case.vector.elements::<F>(heap)?;
    let matrix = Matrix::new(case.rows, case.entries, &starts, &columns);
    let system = System::new(matrix, &coefficients, &right_hand_side);
    swept_listing(heap, arithmetic, &system, case.sweeps, &mut vector)
}

fn case_text(heap: Global, case: &Case<'_>) -> Result<String, AllocError>
    ensures { IfOk result (λ text. string_bytes text ≡ kind_text_of case.now.kind (contents_of case.now)) }
{
    // Kept: a closure cannot be generic over the arithmetic, so each kind's call is written out.
    match case.kind {
        Kind::Doubles => sweep_text(heap, &Doubles, case),
        Kind::Minutes => sweep_text(heap, &Minutes, case),
    }
}

// What is printed of a file's bytes.
// Kept: reports differ in the text of a case; a shared one would take it as a closure, and say less plainly what is printed.
pub fn report(heap: Global, file: &[u8]) -> Result<String, AllocError>
    ensures { IfOk result (λ text. string_bytes text ≡ reported file.now) }
{
    match check_input(file).and_then(|()| Case::read(file)) {
        Ok(case) => case_text(heap, &case),
        Err(fault) => refusal(heap, fault),
    }
}
