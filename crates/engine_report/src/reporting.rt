// A case file solved tile by tile, and what is printed of it.
ghost use Rattle.std.specs.Prelude.{◌≡◌, IfOk, string_bytes};
ghost use Rattle.case_file.specs.Contents.{contents_of};
ghost use Rattle.preparing.specs.Held.{posed_by};
ghost use Rattle.engine_report.specs.Reports.{problem_text_of, solved_text, kind_text_of, reported};

use crate::cases::{pose, read_tables};
use crate::lines::solution_listing;
use arithmetic::Arithmetic;
use arithmetic::doubles::Doubles;
use arithmetic::minutes::Minutes;
use case_file::filed::Filed;
use case_file::kinds::Kind;
use case_file::reading::Case;
use engine::solving::solve;
use growing::Seeding;
use listing::refusals::{check_input, refusal};
use preparing::failing::Failure;
use preparing::posing::Problem;
use std::alloc::{AllocError, Global};

// The refusal's line, or the listing of the solution.
fn problem_text<F: Filed + Copy, K: Arithmetic<Coefficient = F, Value = F>>(
    heap: Global,
    arithmetic: &K,
    problem: &Problem<'_, F, F>,
) -> Result<String, AllocError>
    ensures { IfOk result (λ text. string_bytes text ≡ problem_text_of (K.means arithmetic.now) F.Filed.width F.Filed.printed (posed_by problem.now)) }
{
    let rows = problem.system.matrix.rows;
    let Seeding { sweeps, tiles, .. } = problem.seeding;
    match solve(heap, arithmetic, problem) {
        Ok(solution) => solution_listing(heap, rows, sweeps, tiles, &solution),
        Err(Failure::Refusal(fault)) => refusal(heap, fault),
        Err(Failure::NoMemory(error)) => Err(error),
    }
}

// The case solved by its kind's arithmetic.
fn solve_text<F: Filed + Copy, K: Arithmetic<Coefficient = F, Value = F>>(
    heap: Global,
    arithmetic: &K,
    case: &Case<'_>,
) -> Result<String, AllocError>
    ensures { IfOk result (λ text. string_bytes text ≡ solved_text (K.means arithmetic.now) F.Filed.width F.Filed.filed F.Filed.printed (contents_of case.now)) }
{
    let tables = read_tables::<F>(heap, case)?;
    let problem = pose(case, &tables);
    problem_text(heap, arithmetic, &problem)
}

fn case_text(heap: Global, case: &Case<'_>) -> Result<String, AllocError>
    ensures { IfOk result (λ text. string_bytes text ≡ kind_text_of case.now.kind (contents_of case.now)) }
{
    // Kept: a closure cannot be generic over the arithmetic, so each kind's call is written out.
    match case.kind {
        Kind::Doubles => solve_text(heap, &Doubles, case),
        Kind::Minutes => solve_text(heap, &Minutes, case),
    }
}

// What is printed of a file's bytes.
// Kept: reports differ in the text of a case; a shared one would take it as a closure, and say less plainly what is printed.
pub fn report(heap: Global, file: &[u8]) -> Result<String, AllocError>
    ensures { IfOk result (λ text. string_bytes text ≡ reported file.now) }
{
    match check_input(file).and_then(|()| Case::read(file)) {
        Ok(case) => case_text(heap, &case),
        Err(fault) => refusal(heap, fault),
    }
}
