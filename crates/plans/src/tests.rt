use crate::layout::lay_out;
use crate::lent::{Layout, Tiling};
use crate::plan::Plan;
use checks::Fault;
use matrix::pattern::Matrix;
use std::process::Abort;
use std::test::Fail;

// Two rows that store only themselves, and two of which the first alone stores the second.
static PAIR_STARTS: [u32; 3] = [0, 1, 2];

static PAIR_COLUMNS: [u32; 2] = [0, 1];

static LINKED_STARTS: [u32; 3] = [0, 2, 3];

static LINKED_COLUMNS: [u32; 3] = [1, 0, 1];

fn refused(rt: &impl Abort, res: Result<(), Fault>, number: u8, place: usize) -> Result<(), Fail> {
    match res {
        Ok(()) => Err(Fail::new("not refused")),
        Err(fault) => {
            assert_eq!(rt; fault.check.number(), number);
            assert_eq!(rt; fault.place, place);
            Ok(())
        }
    }
}

fn opens<'a>(rt: &impl Abort, tiling: Tiling<'a>, layout: Layout<'a>) -> Result<(), Fail> {
    let mut plan = Plan::built_in();
    plan.open(tiling, layout)?;
    assert_eq!(rt; plan.rows(), 3);
    assert_eq!(rt; plan.part(1, 1).len(), 2);
    assert_eq!(rt; plan.tile_points(0), 3);
    assert_eq!(rt; plan.wait_word(1), 1);
    Ok(())
}

#[test]
fn the_path_opens(rt: HostRuntime) -> Result<(), Fail> {
    let row_starts = [0, 2, 5, 7];
    let columns = [0, 1, 1, 2, 0, 2, 1];
    let cells = [0, 0, 1, 0, 1, 1];
    let mut schedule = [9; 6];
    let mut starts = [9; 5];
    let mut words = [9; 2];
    let matrix = Matrix {
        rows: 3,
        entries: 7,
        starts: &row_starts,
        columns: &columns,
    };
    let tiling = Tiling {
        matrix,
        sweeps: 2,
        tiles: 2,
        cells: &cells,
    };
    lay_out(&tiling, &mut schedule, &mut starts, &mut words)?;
    let layout = Layout {
        schedule: &schedule,
        starts: &starts,
        words: &words,
    };
    opens(&rt, tiling, layout)
}

#[test]
fn refusals_leave_the_plan(rt: HostRuntime) -> Result<(), Fail> {
    let apart = Tiling {
        matrix: Matrix {
            rows: 2,
            entries: 2,
            starts: &PAIR_STARTS,
            columns: &PAIR_COLUMNS,
        },
        sweeps: 1,
        tiles: 2,
        cells: &[0, 1],
    };
    let linked = Tiling {
        matrix: Matrix {
            rows: 2,
            entries: 3,
            starts: &LINKED_STARTS,
            columns: &LINKED_COLUMNS,
        },
        sweeps: 1,
        tiles: 2,
        cells: &[1, 0],
    };
    let unlawful = Layout {
        schedule: &[1, 0],
        starts: &[0, 1, 2],
        words: &[2, 0],
    };
    let right = Layout {
        schedule: &[0, 1],
        starts: &[0, 1, 2],
        words: &[0, 0],
    };
    let wrong_start = Layout {
        starts: &[0, 0, 2],
        ..right
    };
    let wrong_schedule = Layout {
        schedule: &[1, 0],
        ..right
    };
    let wrong_word = Layout {
        words: &[0, 1],
        ..right
    };
    let mut plan = Plan::built_in();
    refused(&rt, plan.open(linked, unlawful), 9, 1)?;
    refused(&rt, plan.open(apart, wrong_start), 10, 1)?;
    refused(&rt, plan.open(apart, wrong_schedule), 11, 0)?;
    refused(&rt, plan.open(apart, wrong_word), 12, 1)?;
    assert_eq!(rt; plan.rows(), 1);
    plan.open(apart, right)?;
    assert_eq!(rt; plan.rows(), 2);
    Ok(())
}

#[test]
fn the_last_tile_is_waited_for(rt: HostRuntime) -> Result<(), Fail> {
    let matrix = Matrix {
        rows: 2,
        entries: 3,
        starts: &LINKED_STARTS,
        columns: &LINKED_COLUMNS,
    };
    let linked = Tiling {
        matrix,
        sweeps: 1,
        tiles: 64,
        cells: &[63, 0],
    };
    let one_more = Tiling {
        tiles: 65,
        ..linked
    };
    let mut schedule = [9; 2];
    let mut starts = [9; 65];
    let mut words = [9; 64];
    lay_out(&linked, &mut schedule, &mut starts, &mut words)?;
    assert_eq!(rt; words[0], 1 << 63);
    assert_eq!(rt; words[63], 0);
    let answer = lay_out(&one_more, &mut schedule, &mut starts, &mut words);
    refused(&rt, answer, 1, 4)
}
