// Plans laid out, opened and refused.
use crate::is_fault;
use crate::path::{
    COLUMNS, SCHEDULE, SCHEDULE_STARTS, STARTS, TILES, WAIT_WORDS, layout, open_path, path,
    path_layout, path_tiling, tiling,
};
use checks::Layer;
use matrix::pattern::Matrix;
use plans::layout::lay_out;
use plans::lent::{Layout, Tiling};
use plans::plan::Plan;
use std::process::Abort;
use std::test::Fail;

fn is_the_path(rt: &impl Abort, plan: &Plan<'_>) {
    assert!(rt; plan.rows() == 3 && plan.entries() == 7);
    assert!(rt; plan.sweeps() == 2 && plan.tiles() == 2);
    assert!(rt; plan.part(0, 0) == [0, 1].as_slice() && plan.part(0, 1) == [0].as_slice());
    assert!(rt; plan.part(1, 0) == [2].as_slice() && plan.part(1, 1) == [1, 2].as_slice());
    assert!(rt; plan.tile_points(0) == 3 && plan.tile_points(1) == 3);
    assert!(rt; plan.wait_word(0) == 0 && plan.wait_word(1) == 1);
}

// There is no tile 2 and no third sweep.
#[test]
fn past_the_end(rt: HostRuntime) -> Result<(), Fail> {
    let mut plan = Plan::built_in();
    open_path(&mut plan)?;
    is_the_path(&rt, &plan);
    assert!(rt; plan.part(2, 0).len() == 0 && plan.part(1, 2).len() == 0);
    assert!(rt; plan.tile_points(2) == 0 && plan.wait_word(2) == 0);
    Ok(())
}

#[test]
fn the_built_in_plan(rt: HostRuntime) {
    let plan = Plan::built_in();
    assert!(rt; plan.rows() == 1 && plan.entries() == 1);
    assert!(rt; plan.sweeps() == 1 && plan.tiles() == 1);
    assert!(rt; plan.part(0, 0) == [0].as_slice());
    assert!(rt; plan.tile_points(0) == 1 && plan.wait_word(0) == 0);
}

// Opening is refused while the path's plan is held, which stays.
fn refused<'a>(
    rt: &impl Abort,
    tiling: Tiling<'a>,
    layout: Layout<'a>,
    number: u8,
    place: usize,
) -> Result<(), Fail> {
    let mut plan = Plan::built_in();
    open_path(&mut plan)?;
    let answer = plan.open(tiling, layout);
    assert!(rt; is_fault(answer.err(), Layer::Plan, number, place));
    is_the_path(rt, &plan);
    Ok(())
}

static UNLAWFUL: [u8; 6] = [1, 0, 1, 1, 1, 1];

// Row 0 precedes row 1 within sweep 1, and its tile 1 is above tile 0; each tile waits for the other.
#[test]
fn an_unlawful_path(rt: HostRuntime) -> Result<(), Fail> {
    let mut schedule = [9; 6];
    let mut starts = [9; 5];
    let mut words = [9; 2];
    lay_out(
        &tiling(path(), 2, 2, &UNLAWFUL),
        &mut schedule,
        &mut starts,
        &mut words,
    )?;
    assert_eq!(rt; schedule, [1, 0, 2, 0, 1, 2]);
    assert_eq!(rt; starts, [0, 1, 1, 3, 6]);
    assert_eq!(rt; words, [2, 1]);
    refused(
        &rt,
        tiling(path(), 2, 2, &UNLAWFUL),
        layout(&schedule, &starts, &words),
        9,
        1,
    )
}

fn of_path<'a>(
    rt: &impl Abort,
    schedule: &'a [u32],
    starts: &'a [u32],
    words: &'a [u64],
    number: u8,
    place: usize,
) -> Result<(), Fail> {
    refused(
        rt,
        path_tiling(),
        layout(schedule, starts, words),
        number,
        place,
    )
}

#[test]
fn wrong_schedule_starts(rt: HostRuntime) -> Result<(), Fail> {
    of_path(&rt, &SCHEDULE, &[1, 2, 3, 4, 6], &WAIT_WORDS, 10, 0)?;
    of_path(&rt, &SCHEDULE, &[0, 2, 2, 4, 6], &WAIT_WORDS, 10, 2)?;
    of_path(&rt, &[1, 0, 0, 2, 1, 2], &[0, 2, 3, 4, 5], &[1, 1], 10, 4)
}

#[test]
fn rows_exchanged(rt: HostRuntime) -> Result<(), Fail> {
    of_path(
        &rt,
        &[1, 0, 0, 2, 1, 2],
        &SCHEDULE_STARTS,
        &WAIT_WORDS,
        11,
        0,
    )?;
    of_path(
        &rt,
        &[0, 1, 0, 2, 2, 1],
        &SCHEDULE_STARTS,
        &WAIT_WORDS,
        11,
        4,
    )?;
    of_path(&rt, &[0, 1, 2, 0, 1, 2], &SCHEDULE_STARTS, &[1, 1], 11, 2)
}

#[test]
fn wrong_wait_words(rt: HostRuntime) -> Result<(), Fail> {
    of_path(&rt, &SCHEDULE, &SCHEDULE_STARTS, &[1, 1], 12, 0)?;
    of_path(&rt, &SCHEDULE, &SCHEDULE_STARTS, &[0, 0], 12, 1)?;
    of_path(&rt, &SCHEDULE, &SCHEDULE_STARTS, &[0, 3], 12, 1)?;
    of_path(&rt, &SCHEDULE, &SCHEDULE_STARTS, &[0, 5], 12, 1)
}

// The path of four grown from 1 2 3 0, in the new numbering: new rows 0 to 3 are rows 3, 0, 1, 2.
static FOUR_STARTS: [u32; 5] = [0, 2, 4, 7, 10];

static FOUR_COLUMNS: [u32; 10] = [0, 3, 1, 2, 2, 1, 3, 3, 2, 0];

static FOUR_TILES: [u8; 8] = [0, 1, 2, 3, 3, 2, 3, 3];

fn four<'a>() -> Matrix<'a> {
    Matrix::new(4, 10, &FOUR_STARTS, &FOUR_COLUMNS)
}

// Tile 1 is row 1 alone in sweep 1 and waits for none; tile 2 waits for tile 1, and tile 3 for all.
#[test]
fn every_lower_tile(rt: HostRuntime) -> Result<(), Fail> {
    let mut schedule = [9; 8];
    let mut starts = [9; 9];
    let mut words = [9; 4];
    lay_out(
        &tiling(four(), 2, 4, &FOUR_TILES),
        &mut schedule,
        &mut starts,
        &mut words,
    )?;
    assert_eq!(rt; schedule, [0, 1, 2, 1, 3, 0, 2, 3]);
    assert_eq!(rt; starts, [0, 1, 1, 2, 2, 3, 4, 5, 8]);
    assert_eq!(rt; words, [0, 0, 2, 7]);
    let lower = [0, 1, 3, 7];
    refused(
        &rt,
        tiling(four(), 2, 4, &FOUR_TILES),
        layout(&schedule, &starts, &lower),
        12,
        1,
    )
}

// One of the two rows stores the other's column, and the other does not.
static FIRST_STORES_STARTS: [u32; 3] = [0, 2, 3];

static FIRST_STORES_COLUMNS: [u32; 3] = [0, 1, 1];

static SECOND_STORES_STARTS: [u32; 3] = [0, 1, 3];

static SECOND_STORES_COLUMNS: [u32; 3] = [0, 1, 0];

// Two sweeps over two linked rows: tiles 0 1 / 1 1 are lawful, and in 0 1 / 0 1 row 1 of sweep 1 precedes row 0 of sweep 2.
fn one_way<'a>(rt: &impl Abort, matrix: Matrix<'a>) -> Result<(), Fail> {
    let mut schedule = [9; 4];
    let mut starts = [9; 5];
    let mut words = [9; 2];
    lay_out(
        &tiling(matrix, 2, 2, &[0, 1, 1, 1]),
        &mut schedule,
        &mut starts,
        &mut words,
    )?;
    assert_eq!(rt; schedule, [0, 1, 0, 1]);
    assert_eq!(rt; starts, [0, 1, 1, 2, 4]);
    assert_eq!(rt; words, [0, 1]);
    lay_out(
        &tiling(matrix, 2, 2, &[0, 1, 0, 1]),
        &mut schedule,
        &mut starts,
        &mut words,
    )?;
    assert_eq!(rt; schedule, [0, 0, 1, 1]);
    assert_eq!(rt; starts, [0, 1, 2, 3, 4]);
    assert_eq!(rt; words, [2, 1]);
    Ok(())
}

fn one_way_opens<'a>(rt: &impl Abort, matrix: Matrix<'a>) -> Result<(), Fail> {
    let mut plan = Plan::built_in();
    plan.open(
        tiling(matrix, 2, 2, &[0, 1, 1, 1]),
        layout(&[0, 1, 0, 1], &[0, 1, 1, 2, 4], &[0, 1]),
    )?;
    assert!(rt; plan.rows() == 2 && plan.part(1, 1) == [0, 1].as_slice());
    refused(
        rt,
        tiling(matrix, 2, 2, &[0, 1, 0, 1]),
        layout(&[0, 0, 1, 1], &[0, 1, 2, 3, 4], &[2, 1]),
        9,
        2,
    )
}

#[test]
fn one_way_links(rt: HostRuntime) -> Result<(), Fail> {
    let first = Matrix::new(2, 3, &FIRST_STORES_STARTS, &FIRST_STORES_COLUMNS);
    one_way(&rt, first)?;
    one_way_opens(&rt, first)?;
    let second = Matrix::new(2, 3, &SECOND_STORES_STARTS, &SECOND_STORES_COLUMNS);
    one_way(&rt, second)?;
    one_way_opens(&rt, second)
}

// The path's tables are right but for what is handed in.
fn of_matrix<'a>(
    rt: &impl Abort,
    rows: u32,
    entries: u32,
    starts: &'a [u32],
    columns: &'a [u32],
    number: u8,
    place: usize,
) -> Result<(), Fail> {
    let matrix = Matrix::new(rows, entries, starts, columns);
    let tiling = tiling(matrix, 2, 2, &TILES);
    layout_refused(rt, &tiling, number, place);
    refused(rt, tiling, path_layout(), number, place)
}

fn of_tiles<'a>(
    rt: &impl Abort,
    sweeps: u32,
    tiles: u32,
    cells: &'a [u8],
    number: u8,
    place: usize,
) -> Result<(), Fail> {
    let tiling = tiling(path(), sweeps, tiles, cells);
    layout_refused(rt, &tiling, number, place);
    refused(rt, tiling, path_layout(), number, place)
}

fn layout_refused(rt: &impl Abort, tiling: &Tiling<'_>, number: u8, place: usize) {
    let mut schedule = [9; 6];
    let mut starts = [9; 5];
    let mut words = [9; 2];
    let answer = lay_out(tiling, &mut schedule, &mut starts, &mut words);
    assert!(rt; is_fault(answer.err(), Layer::Plan, number, place));
    assert_eq!(rt; schedule, [9; 6]);
    assert_eq!(rt; starts, [9; 5]);
    assert_eq!(rt; words, [9; 2]);
}

#[test]
fn refused_sizes(rt: HostRuntime) -> Result<(), Fail> {
    of_matrix(&rt, 0, 7, &STARTS, &COLUMNS, 1, 1)?;
    of_matrix(&rt, 1_048_577, 7, &STARTS, &COLUMNS, 1, 1)?;
    of_matrix(&rt, 3, 0, &STARTS, &COLUMNS, 1, 2)?;
    of_matrix(&rt, 3, 16_777_217, &STARTS, &COLUMNS, 1, 2)?;
    of_tiles(&rt, 0, 2, &TILES, 1, 3)?;
    of_tiles(&rt, 17, 2, &TILES, 1, 3)?;
    of_tiles(&rt, 2, 0, &TILES, 1, 4)?;
    of_tiles(&rt, 2, 65, &TILES, 1, 4)
}

#[test]
fn refused_lengths(rt: HostRuntime) -> Result<(), Fail> {
    of_path(&rt, &[0, 1, 0, 2, 1], &[0, 2, 3, 4], &WAIT_WORDS, 2, 9)?;
    of_path(&rt, &SCHEDULE, &[0, 2, 3, 4], &[0], 2, 10)?;
    of_path(&rt, &SCHEDULE, &SCHEDULE_STARTS, &[0, 1, 0], 2, 11)?;
    of_matrix(&rt, 3, 7, &[0, 2, 7], &[0, 1, 1, 2, 0, 2], 2, 21)?;
    of_matrix(&rt, 3, 7, &STARTS, &[0, 1, 1, 2, 0, 2], 2, 22)?;
    of_tiles(&rt, 2, 2, &[0, 0, 1, 0, 1], 2, 24)
}

fn new_tables_refused(
    rt: &impl Abort,
    schedule: &mut [u32],
    starts: &mut [u32],
    words: &mut [u64],
    place: usize,
) {
    let answer = lay_out(&path_tiling(), schedule, starts, words);
    assert!(rt; is_fault(answer.err(), Layer::Plan, 2, place));
}

#[test]
fn refused_new_lengths(rt: HostRuntime) {
    let mut schedule = [9; 7];
    let mut starts = [9; 4];
    let mut words = [9; 3];
    new_tables_refused(&rt, &mut schedule, &mut starts, &mut words, 9);
    assert_eq!(rt; schedule, [9; 7]);
    let mut schedule = [9; 6];
    new_tables_refused(&rt, &mut schedule, &mut starts, &mut words, 10);
    assert_eq!(rt; starts, [9; 4]);
    let mut starts = [9; 5];
    new_tables_refused(&rt, &mut schedule, &mut starts, &mut words, 11);
    assert_eq!(rt; schedule, [9; 6]);
    assert_eq!(rt; starts, [9; 5]);
    assert_eq!(rt; words, [9; 3]);
}

#[test]
fn refused_matrices(rt: HostRuntime) -> Result<(), Fail> {
    of_matrix(&rt, 3, 7, &[1, 2, 5, 7], &COLUMNS, 3, 0)?;
    of_matrix(&rt, 3, 7, &[0, 5, 2, 7], &COLUMNS, 3, 2)?;
    of_matrix(&rt, 3, 7, &STARTS, &[0, 1, 1, 2, 3, 2, 3], 4, 4)?;
    of_matrix(&rt, 3, 7, &STARTS, &[0, 1, 1, 1, 0, 2, 1], 5, 1)?;
    of_matrix(&rt, 3, 7, &STARTS, &[0, 1, 1, 2, 0, 0, 1], 5, 2)
}

#[test]
fn refused_tiles(rt: HostRuntime) -> Result<(), Fail> {
    of_tiles(&rt, 2, 2, &[0, 0, 1, 0, 2, 255], 8, 4)?;
    of_tiles(&rt, 2, 2, &[1, 0, 1, 1, 1, 2], 8, 5)
}
