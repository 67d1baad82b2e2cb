// A problem in the new numbering, laid out and ready to be opened.
ghost use Rattle.std.specs.Prelude.{◌≡◌, OnErr};
ghost use Rattle.std.specs.Result.{result_err};
ghost use Rattle.checks.specs.Verdicts.{unless_refused};
ghost use Rattle.plans.specs.Opening.{opening_fault};
ghost use Rattle.plans.specs.Held.{tables_held};
ghost use Rattle.preparing.specs.Failing.{Answers};
ghost use Rattle.preparing.specs.Layouts.{tables_in};
ghost use Rattle.preparing.specs.Posed.{preparing_fault};
ghost use Rattle.preparing.specs.Held.{posed_by};
ghost use Rattle.preparing.specs.Prepared.{Prepares};

use crate::failing::Failure;
use crate::figures::Figures;
use crate::layouts::{Layout, lay_tiles_out};
use crate::numbered::{Ranking, Remapped, Renumbered, renumber};
use crate::posing::Problem;
use checks::Fault;
use plans::plan::Plan;
use std::alloc::Global;

#[derive(Drop)]
pub struct Prepared<C, V> {
    pub ranking: Ranking,
    pub tables: Remapped,
    pub figures: Figures<C, V>,
    pub layout: Layout,
}

// Grows, ranks, remaps, carries and lays out. Nothing is refused but by growing and for the lengths of the figures.
pub fn prepare<C: Copy, V: Copy>(
    heap: Global,
    problem: &Problem<'_, C, V>,
) -> Result<Prepared<C, V>, Failure>
    ensures { Answers (preparing_fault (posed_by problem.now)) (Prepares (posed_by problem.now)) result }
{
    let system = problem.system;
    let Renumbered { ranking, tables } = renumber(heap, &system.matrix, &problem.seeding)?;
    let figures = ranking.carry_figures(heap, &system, problem.vector)?;
    let layout = lay_tiles_out(heap, &tables.lend())?;
    Ok(Prepared {
        ranking,
        tables,
        figures,
        layout,
    })
}

// Opens what was prepared into the plan that the caller holds; refused, it leaves that as it was.
pub fn open_tables<'a>(
    plan: &mut Plan<'a>,
    tables: &'a Remapped,
    layout: &'a Layout,
) -> Result<(), Fault>
    ensures fault { result_err result ≡ opening_fault (tables_in tables.now layout.now) }
    ensures held { tables_held plan.new ≡ unless_refused (opening_fault (tables_in tables.now layout.now)) (tables_in tables.now layout.now) (tables_held plan.old) }
    ensures same { OnErr result (plan.new ≡ plan.old) }
{
    plan.open(tables.lend(), layout.lend())
}
