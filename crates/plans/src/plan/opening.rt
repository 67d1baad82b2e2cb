// Opening: the only way to a plan but the built-in one.
ghost use Rattle.std.specs.Prelude.{◌≡◌, OnErr};
ghost use Rattle.std.specs.Result.{result_err};
ghost use Rattle.checks.specs.Verdicts.{unless_refused};
ghost use Rattle.plans.specs.Opening.{opening_fault, laid_out};
ghost use Rattle.plans.specs.Held.{tables_lent, tables_held};
ghost use Rattle.plans.specs.BuiltIn.{built_in_tiling};

use super::Plan;
use crate::lent::{Layout, Tiling};
use crate::table::TileTable;
use crate::table::checking::Lengths;
use checks::Fault;
use matrix::pattern::Matrix;

static ROW_STARTS: [u32; 2] = [0, 1];

static COLUMNS: [u32; 1] = [0];

static CELLS: [u8; 1] = [0];

static SCHEDULE: [u32; 1] = [0];

static SCHEDULE_STARTS: [u32; 2] = [0, 1];

static WAIT_WORDS: [u64; 1] = [0];

impl<'a> Plan<'a> {
    // One row, one sweep, one tile.
    pub fn built_in() -> Plan<'a>
        ensures { tables_held result ≡ laid_out built_in_tiling }
    {
        let matrix = Matrix {
            rows: 1,
            entries: 1,
            starts: &ROW_STARTS,
            columns: &COLUMNS,
        };
        let tiling = Tiling {
            matrix,
            sweeps: 1,
            tiles: 1,
            cells: &CELLS,
        };
        let layout = Layout {
            schedule: &SCHEDULE,
            starts: &SCHEDULE_STARTS,
            words: &WAIT_WORDS,
        };
        Plan {
            table: TileTable { tiling },
            layout,
        }
    }

    // Opens into the plan that the caller holds; refused, it leaves that as it was.
    pub fn open(&mut self, tiling: Tiling<'a>, layout: Layout<'a>) -> Result<(), Fault>
        ensures fault { result_err result ≡ opening_fault (tables_lent tiling.entry layout.entry) }
        ensures held { tables_held self.new ≡ unless_refused (opening_fault (tables_lent tiling.entry layout.entry)) (tables_lent tiling.entry layout.entry) (tables_held self.old) }
        ensures same { OnErr result (self.new ≡ self.old) }
    {
        let lengths = Lengths {
            schedule: layout.schedule.len(),
            starts: layout.starts.len(),
            words: layout.words.len(),
        };
        let table = TileTable::check(tiling, lengths)?;
        table.check_laid_out(&layout)?;
        *self = Plan { table, layout };
        Ok(())
    }
}
