// A case file and a list of tile numbers, and what is written of them.
ghost use Rattle.std.specs.Prelude.{◌≡◌, ◌*◌, [], ◌∷◌, ◌++◌, IfOk, string_bytes};
ghost use Rattle.checks.specs.Verdicts.{first_fault};
ghost use Rattle.case_file.specs.Contents.{contents_of};
ghost use Rattle.listing.specs.Lines.{heading as heading_of};
ghost use Rattle.plans.specs.Opening.{opening_fault};
ghost use Rattle.runs.specs.Calls.{beginning_fault};
ghost use Rattle.runs.specs.Held.{equations_with};
ghost use Rattle.preparing.specs.Failing.{Answers};
ghost use Rattle.preparing.specs.Renumbered.{tiling_in};
ghost use Rattle.preparing.specs.Layouts.{tables_in};
ghost use Rattle.preparing.specs.Held.{posed_by};
ghost use Rattle.engine.specs.Solutions.{solving_fault};
ghost use Rattle.engine_report.specs.Cases.{posed_in};
ghost use Rattle.replay.specs.Traces.{trace};
ghost use Rattle.replay.specs.Replays.{begun, problem_trace, problem_text_of, kind_text_of, replayed};

use crate::tracing::trace_run;
use arithmetic::Arithmetic;
use arithmetic::doubles::Doubles;
use arithmetic::minutes::Minutes;
use case_file::filed::Filed;
use case_file::kinds::Kind;
use case_file::reading::Case;
use engine_report::cases::{pose, read_tables};
use listing::headings::heading;
use listing::refusals::refusal;
use plans::plan::Plan;
use preparing::failing::Failure;
use preparing::figures::Figures;
use preparing::layouts::Layout;
use preparing::numbered::Remapped;
use preparing::posing::Problem;
use preparing::prepared::{Prepared, open_tables, prepare};
use runs::system::TiledSystem;
use std::alloc::{AllocError, Global};

// Opens what was prepared and retells a run over it.
// Kept: the run lends two of the figures and writes the third, so a value of the three would be taken apart at once.
fn replay_prepared<F: Filed + Copy, K: Arithmetic<Coefficient = F, Value = F>>(
    heap: Global,
    arithmetic: &K,
    tables: &Remapped,
    layout: &Layout,
    coefficients: &[F],
    right_hand_side: &[F],
    vector: &mut [F],
    calls: &[u8],
) -> Result<String, Failure>
    ensures { Answers (first_fault (opening_fault (tables_in tables.now layout.now) ∷ beginning_fault (K.means arithmetic.now) (tiling_in tables.now).pattern coefficients.now right_hand_side.now vector.old ∷ [])) (λ text. string_bytes text ≡ heading_of tables.now.rows tables.now.sweeps tables.now.tiles ++ trace (K.means arithmetic.now) (equations_with (tiling_in tables.now) coefficients.now right_hand_side.now) (tiling_in tables.now) (2 * F.Filed.width) F.Filed.printed (begun vector.old) calls.now) result }
{
    let mut plan = Plan::built_in();
    open_tables(&mut plan, tables, layout)?;
    let mut text = heading(heap, tables.rows, tables.sweeps, tables.tiles)?;
    let system = TiledSystem {
        arithmetic,
        plan: &plan,
        coefficients,
        right_hand_side,
    };
    trace_run(&mut text, system, vector, calls)?;
    Ok(text)
}

fn replay_problem<F: Filed + Copy, K: Arithmetic<Coefficient = F, Value = F>>(
    heap: Global,
    arithmetic: &K,
    problem: &Problem<'_, F, F>,
    calls: &[u8],
) -> Result<String, Failure>
    ensures { Answers (solving_fault (K.means arithmetic.now) (posed_by problem.now)) (λ text. string_bytes text ≡ problem_trace (K.means arithmetic.now) F.Filed.width F.Filed.printed (posed_by problem.now) calls.now) result }
{
    let Prepared {
        ranking: _,
        tables,
        figures,
        layout,
    } = prepare(heap, problem)?;
    let Figures {
        coefficients,
        right_hand_side,
        mut vector,
    } = figures;
    replay_prepared(
        heap,
        arithmetic,
        &tables,
        &layout,
        coefficients.as_slice(),
        right_hand_side.as_slice(),
        vector.as_mut_slice(),
        calls,
    )
}

// The refusal's line, or the calls.
fn problem_text<F: Filed + Copy, K: Arithmetic<Coefficient = F, Value = F>>(
    heap: Global,
    arithmetic: &K,
    problem: &Problem<'_, F, F>,
    calls: &[u8],
) -> Result<String, AllocError>
    ensures { IfOk result (λ text. string_bytes text ≡ problem_text_of (K.means arithmetic.now) F.Filed.width F.Filed.printed (posed_by problem.now) calls.now) }
{
    match replay_problem(heap, arithmetic, problem, calls) {
        Ok(text) => Ok(text),
        Err(Failure::Refusal(fault)) => refusal(heap, fault),
        Err(Failure::NoMemory(error)) => Err(error),
    }
}

// The case's calls by its kind's arithmetic.
fn case_text<F: Filed + Copy, K: Arithmetic<Coefficient = F, Value = F>>(
    heap: Global,
    arithmetic: &K,
    case: &Case<'_>,
    calls: &[u8],
) -> Result<String, AllocError>
    ensures { IfOk result (λ text. string_bytes text ≡ problem_text_of (K.means arithmetic.now) F.Filed.width F.Filed.printed (posed_in F.Filed.width F.Filed.filed (contents_of case.now)) calls.now) }
{
    let tables = read_tables::<F>(heap, case)?;
    let problem = pose(case, &tables);
    problem_text(heap, arithmetic, &problem, calls)
}

fn kind_text(heap: Global, case: &Case<'_>, calls: &[u8]) -> Result<String, AllocError>
    ensures { IfOk result (λ text. string_bytes text ≡ kind_text_of case.now.kind (contents_of case.now) calls.now) }
{
    // Kept: a closure cannot be generic over the arithmetic, so each kind's call is written out.
    match case.kind {
        Kind::Doubles => case_text(heap, &Doubles, case, calls),
        Kind::Minutes => case_text(heap, &Minutes, case, calls),
    }
}

// What is written of a file's bytes and a list of tile numbers, one byte each.
pub fn replay(heap: Global, file: &[u8], calls: &[u8]) -> Result<String, AllocError>
    ensures { IfOk result (λ text. string_bytes text ≡ replayed file.now calls.now) }
{
    match Case::read(file) {
        Ok(case) => kind_text(heap, &case, calls),
        Err(fault) => refusal(heap, fault),
    }
}
