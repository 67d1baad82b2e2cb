// Runs begun, called tile by tile and closed, over the path of three rows and over 64 tiles.
use crate::is_fault;
use crate::path::{SCHEDULE, TILES, WAIT_WORDS, layout, open_path, path, path_layout, tiling};
use arithmetic::doubles::Doubles;
use arithmetic::minutes::{Minutes, NEVER};
use checks::{Fault, Layer};
use matrix::pattern::Matrix;
use plans::layout::lay_out;
use plans::lent::Tiling;
use plans::plan::Plan;
use runs::run::Run;
use runs::run::closing::{Closing, End};
use runs::system::TiledSystem;
use runs::whole::run_tiles;
use std::process::Abort;
use std::test::Fail;

static COEFFICIENTS: [f64; 7] = [2.0, -1.0, 2.0, -1.0, -1.0, 2.0, -1.0];

static RIGHT_HAND_SIDE: [f64; 3] = [8.0, 0.0, 4.0];

fn figures<'p>(
    plan: &'p Plan<'p>,
    coefficients: &'p [f64],
    right_hand_side: &'p [f64],
) -> TiledSystem<'p, Doubles> {
    TiledSystem {
        arithmetic: &Doubles,
        plan,
        coefficients,
        right_hand_side,
    }
}

// The path's doubles over a plan.
fn doubles<'p>(plan: &'p Plan<'p>) -> TiledSystem<'p, Doubles> {
    figures(plan, &COEFFICIENTS, &RIGHT_HAND_SIDE)
}

fn call(run: &mut Run, plan: &Plan<'_>, vector: &mut [f64], number: u32) -> Result<u32, Fault> {
    run.tile(&doubles(plan), vector, number)
}

fn refused(answer: Result<u32, Fault>, number: u8, place: usize) -> bool {
    is_fault(answer.err(), Layer::Run, number, place)
}

fn updated(answer: Result<u32, Fault>, points: u32) -> bool {
    answer == Ok(points)
}

fn closed(closing: Closing, done: u64, points: u32, end: End) -> bool {
    closing.done == done && closing.points == points && closing.end == end
}

#[test]
fn tile_by_tile(rt: HostRuntime) -> Result<(), Fail> {
    let mut plan = Plan::built_in();
    open_path(&mut plan)?;
    let mut vector = [0.0; 3];
    let mut run = Run::begin(&doubles(&plan), &vector)?;
    let early = call(&mut run, &plan, &mut vector, 1);
    let missing = call(&mut run, &plan, &mut vector, 2);
    let before = vector;
    let first = call(&mut run, &plan, &mut vector, 0);
    let again = call(&mut run, &plan, &mut vector, 0);
    let between = vector;
    let second = call(&mut run, &plan, &mut vector, 1);
    let closing = run.close();
    assert!(rt; refused(early, 18, 0) && refused(missing, 16, 2));
    assert!(rt; before == [0.0, 0.0, 0.0]);
    assert!(rt; updated(first, 3) && refused(again, 17, 0));
    assert!(rt; between == [5.0, 2.0, 0.0]);
    assert!(rt; updated(second, 3));
    assert!(rt; vector == [5.0, 4.0, 4.0]);
    assert!(rt; closed(closing, 3, 6, End::Whole));
    Ok(())
}

#[test]
fn cut_short(rt: HostRuntime) -> Result<(), Fail> {
    let mut plan = Plan::built_in();
    open_path(&mut plan)?;
    let mut vector = [0.0; 3];
    let run = Run::begin(&doubles(&plan), &vector)?;
    assert!(rt; closed(run.close(), 0, 0, End::CutShort));
    let mut run = Run::begin(&doubles(&plan), &vector)?;
    let first = call(&mut run, &plan, &mut vector, 0);
    let closing = run.close();
    assert!(rt; updated(first, 3));
    assert!(rt; vector == [5.0, 2.0, 0.0]);
    assert!(rt; closed(closing, 1, 3, End::CutShort));
    Ok(())
}

#[test]
fn any_list_of_calls(rt: HostRuntime) -> Result<(), Fail> {
    let mut plan = Plan::built_in();
    open_path(&mut plan)?;
    let mut vector = [0.0; 3];
    let closing = run_tiles(&doubles(&plan), &mut vector, &[1, 0, 7, 0, 1])?;
    assert!(rt; vector == [5.0, 4.0, 4.0]);
    assert!(rt; closed(closing, 3, 6, End::Whole));
    let closing = run_tiles(&doubles(&plan), &mut vector, &[1, 7])?;
    assert!(rt; vector == [5.0, 4.0, 4.0]);
    assert!(rt; closed(closing, 0, 0, End::CutShort));
    Ok(())
}

// Links 0-1 and 1-2 of the original rows take 7 and 5 minutes; water comes to row 0 at 10. New rows are 2, 1, 0.
static MINUTES: [u32; 7] = [0, 5, 0, 7, 5, 0, 7];

static ARRIVALS: [u32; 3] = [NEVER, NEVER, 10];

#[test]
fn minutes(rt: HostRuntime) -> Result<(), Fail> {
    let mut plan = Plan::built_in();
    open_path(&mut plan)?;
    let mut vector = [NEVER; 3];
    let system = TiledSystem {
        arithmetic: &Minutes,
        plan: &plan,
        coefficients: &MINUTES,
        right_hand_side: &ARRIVALS,
    };
    let mut run = Run::begin(&system, &vector)?;
    let first = run.tile(&system, &mut vector, 0);
    let between = vector;
    let second = run.tile(&system, &mut vector, 1);
    let closing = run.close();
    assert!(rt; updated(first, 3) && updated(second, 3));
    assert_eq!(rt; between, [NEVER, NEVER, NEVER]);
    assert_eq!(rt; vector, [NEVER, 17, 10]);
    assert!(rt; closed(closing, 3, 6, End::Whole));
    Ok(())
}

fn begin_refused<'a>(
    rt: &impl Abort,
    coefficients: &'a [f64],
    right_hand_side: &'a [f64],
    vector: &mut [f64],
    number: u8,
    place: usize,
) -> Result<(), Fail> {
    let mut plan = Plan::built_in();
    open_path(&mut plan)?;
    let system = figures(&plan, coefficients, right_hand_side);
    let answer = run_tiles(&system, vector, &[0, 1]);
    assert!(rt; is_fault(answer.err(), Layer::Run, number, place));
    match Run::begin(&system, vector) {
        Ok(run) => {
            let _ = run.close();
            Err(Fail::new("not refused"))
        }
        Err(fault) => {
            assert!(rt; is_fault(Some(fault), Layer::Run, number, place));
            Ok(())
        },
    }
}

fn coefficients_refused<'a>(
    rt: &impl Abort,
    coefficients: &'a [f64],
    place: usize,
) -> Result<(), Fail> {
    let mut vector = [1.0, 2.0, 3.0];
    begin_refused(rt, coefficients, &RIGHT_HAND_SIDE, &mut vector, 13, place)?;
    assert!(rt; vector == [1.0, 2.0, 3.0]);
    Ok(())
}

// Entry 5 is row 2's own; a zero elsewhere is admissible.
#[test]
fn refused_coefficients(rt: HostRuntime) -> Result<(), Fail> {
    coefficients_refused(&rt, &[0.0, -1.0, 2.0, -1.0, -1.0, 2.0, -1.0], 0)?;
    coefficients_refused(&rt, &[2.0, 0.0, 2.0, -1.0, -1.0, -0.0, -1.0], 5)?;
    coefficients_refused(&rt, &[2.0, -1.0, 2.0, 1.0 / 0.0, -1.0, 0.0, -1.0], 3)?;
    coefficients_refused(&rt, &[2.0, -1.0, -1.0 / 0.0, -1.0, -1.0, 2.0, -1.0], 2)?;
    coefficients_refused(&rt, &[2.0, -1.0, 2.0, -1.0, -1.0, 2.0, 0.0 / 0.0], 6)
}

#[test]
fn refused_values(rt: HostRuntime) -> Result<(), Fail> {
    let mut vector = [1.0, 2.0, 3.0];
    begin_refused(
        &rt,
        &COEFFICIENTS,
        &[8.0, 0.0 / 0.0, 0.0 / 0.0],
        &mut vector,
        14,
        1,
    )?;
    begin_refused(
        &rt,
        &COEFFICIENTS,
        &[8.0, 0.0, 1.0 / 0.0],
        &mut vector,
        14,
        2,
    )?;
    assert!(rt; vector == [1.0, 2.0, 3.0]);
    let mut vector = [1.0, 2.0, 0.0 / 0.0];
    begin_refused(&rt, &COEFFICIENTS, &RIGHT_HAND_SIDE, &mut vector, 15, 2)?;
    assert!(rt; vector[0] == 1.0 && vector[1] == 2.0 && vector[2].is_nan());
    let mut vector = [-1.0 / 0.0, 2.0, 3.0];
    begin_refused(&rt, &COEFFICIENTS, &RIGHT_HAND_SIDE, &mut vector, 15, 0)?;
    assert!(rt; vector == [-1.0 / 0.0, 2.0, 3.0]);
    Ok(())
}

#[test]
fn refused_lengths(rt: HostRuntime) -> Result<(), Fail> {
    let mut vector = [1.0, 2.0];
    begin_refused(&rt, &[2.0; 6], &[8.0; 2], &mut vector, 2, 32)?;
    begin_refused(&rt, &COEFFICIENTS, &[8.0; 2], &mut vector, 2, 33)?;
    begin_refused(&rt, &[0.0; 7], &RIGHT_HAND_SIDE, &mut vector, 2, 34)?;
    assert!(rt; vector == [1.0, 2.0]);
    Ok(())
}

// A diagonal of minutes is 0.
#[test]
fn refused_minutes(rt: HostRuntime) -> Result<(), Fail> {
    let mut plan = Plan::built_in();
    open_path(&mut plan)?;
    let mut vector = [NEVER; 3];
    let system = TiledSystem {
        arithmetic: &Minutes,
        plan: &plan,
        coefficients: &[0, 5, 1, 7, 5, 0, 7],
        right_hand_side: &ARRIVALS,
    };
    let answer = run_tiles(&system, &mut vector, &[0, 1]);
    assert!(rt; is_fault(answer.err(), Layer::Run, 13, 2));
    assert_eq!(rt; vector, [NEVER; 3]);
    Ok(())
}

// Sizes come before lengths, and lengths before the tile's number.
#[test]
fn refused_calls(rt: HostRuntime) -> Result<(), Fail> {
    let mut plan = Plan::built_in();
    open_path(&mut plan)?;
    let other = Plan::built_in();
    let mut vector = [0.0; 3];
    let mut short = [0.0; 2];
    let mut run = Run::begin(&doubles(&plan), &vector)?;
    let sizes = call(&mut run, &other, &mut short, 7);
    let lengths = call(&mut run, &plan, &mut short, 7);
    let wrong = run.tile(&figures(&plan, &[2.0], &[8.0]), &mut short, 7);
    let side = run.tile(&figures(&plan, &COEFFICIENTS, &[8.0]), &mut short, 7);
    let first = call(&mut run, &plan, &mut vector, 0);
    let closing = run.close();
    assert!(rt; refused(sizes, 1, 1) && refused(lengths, 2, 34));
    assert!(rt; refused(wrong, 2, 32) && refused(side, 2, 33));
    assert!(rt; short == [0.0, 0.0]);
    assert!(rt; updated(first, 3));
    assert!(rt; closed(closing, 1, 3, End::CutShort));
    Ok(())
}

static LONGER_STARTS: [u32; 4] = [0, 3, 6, 8];

static LONGER_COLUMNS: [u32; 8] = [0, 1, 1, 1, 2, 0, 2, 1];

// Plans that differ from the path's in one size: an entry more, a sweep less, a tile more.
fn open_longer<'a>(plan: &mut Plan<'a>) -> Result<(), Fault> {
    let matrix = Matrix::new(3, 8, &LONGER_STARTS, &LONGER_COLUMNS);
    plan.open(tiling(matrix, 2, 2, &TILES), path_layout())
}

static ONE_SWEEP: [u8; 3] = [0, 0, 1];

static ONE_SCHEDULE: [u32; 3] = [0, 1, 2];

static ONE_STARTS: [u32; 3] = [0, 2, 3];

fn open_shorter<'a>(plan: &mut Plan<'a>) -> Result<(), Fault> {
    plan.open(
        tiling(path(), 1, 2, &ONE_SWEEP),
        layout(&ONE_SCHEDULE, &ONE_STARTS, &WAIT_WORDS),
    )
}

static THREE_STARTS: [u32; 7] = [0, 2, 3, 4, 6, 6, 6];

static THREE_WORDS: [u64; 3] = [0, 1, 0];

fn open_wider<'a>(plan: &mut Plan<'a>) -> Result<(), Fault> {
    plan.open(
        tiling(path(), 2, 3, &TILES),
        layout(&SCHEDULE, &THREE_STARTS, &THREE_WORDS),
    )
}

fn size_refused(rt: &impl Abort, other: &Plan<'static>, place: usize) -> Result<(), Fail> {
    let mut plan = Plan::built_in();
    open_path(&mut plan)?;
    let mut vector = [0.0; 3];
    let mut run = Run::begin(&doubles(&plan), &vector)?;
    let answer = call(&mut run, other, &mut vector, 0);
    let closing = run.close();
    assert!(rt; refused(answer, 1, place));
    assert!(rt; vector == [0.0, 0.0, 0.0]);
    assert!(rt; closed(closing, 0, 0, End::CutShort));
    Ok(())
}

#[test]
fn plans_of_other_sizes(rt: HostRuntime) -> Result<(), Fail> {
    let mut plan = Plan::built_in();
    size_refused(&rt, &plan, 1)?;
    open_longer(&mut plan)?;
    size_refused(&rt, &plan, 2)?;
    open_shorter(&mut plan)?;
    size_refused(&rt, &plan, 3)?;
    open_wider(&mut plan)?;
    size_refused(&rt, &plan, 4)
}

static ALL_FIRST: [u8; 6] = [0; 6];

static ALL_SCHEDULE: [u32; 6] = [0, 1, 2, 0, 1, 2];

static ALL_STARTS: [u32; 5] = [0, 3, 6, 6, 6];

static NO_WAITS: [u64; 2] = [0, 0];

fn open_all_first<'a>(plan: &mut Plan<'a>) -> Result<(), Fault> {
    plan.open(
        tiling(path(), 2, 2, &ALL_FIRST),
        layout(&ALL_SCHEDULE, &ALL_STARTS, &NO_WAITS),
    )
}

// Tile 0 of the other plan has all six points; then tile 1 of the path's updates rows 2, 1, 2 to 4, 4.5 and 4.25.
#[test]
fn a_plan_not_its_own(rt: HostRuntime) -> Result<(), Fail> {
    let mut plan = Plan::built_in();
    open_path(&mut plan)?;
    let mut other = Plan::built_in();
    open_all_first(&mut other)?;
    let mut vector = [0.0; 3];
    let mut run = Run::begin(&doubles(&plan), &vector)?;
    let first = call(&mut run, &other, &mut vector, 0);
    let between = vector;
    let second = call(&mut run, &plan, &mut vector, 1);
    let closing = run.close();
    assert!(rt; updated(first, 6) && updated(second, 3));
    assert!(rt; between == [5.0, 4.0, 4.0]);
    assert!(rt; vector == [5.0, 4.5, 4.25]);
    assert!(rt; closed(closing, 3, 9, End::Whole));
    Ok(())
}

static PAIR_STARTS: [u32; 3] = [0, 2, 4];

static PAIR_COLUMNS: [u32; 4] = [0, 1, 1, 0];

static PAIR_TILES: [u8; 2] = [0, 63];

static PAIR_MINUTES: [u32; 4] = [0, 3, 0, 3];

static PAIR_ARRIVALS: [u32; 2] = [10, NEVER];

fn pair_tiling<'a>() -> Tiling<'a> {
    let matrix = Matrix::new(2, 4, &PAIR_STARTS, &PAIR_COLUMNS);
    tiling(matrix, 1, 64, &PAIR_TILES)
}

// Tile 0 is row 0, tile 63 is row 1 and waits for tile 0, and the tiles between have no points.
fn run_pair<'a>(
    schedule: &'a [u32],
    starts: &'a [u32],
    words: &'a [u64],
    calls: &[u32],
    vector: &mut [u32],
) -> Result<Closing, Fault> {
    let mut plan = Plan::built_in();
    plan.open(pair_tiling(), layout(schedule, starts, words))?;
    let system = TiledSystem {
        arithmetic: &Minutes,
        plan: &plan,
        coefficients: &PAIR_MINUTES,
        right_hand_side: &PAIR_ARRIVALS,
    };
    run_tiles(&system, vector, calls)
}

// Bits 0, 5 and 63 are 9223372036854775841.
#[test]
fn the_last_of_64_tiles(rt: HostRuntime) -> Result<(), Fail> {
    let mut schedule = [9; 2];
    let mut starts = [9; 65];
    let mut words = [9; 64];
    lay_out(&pair_tiling(), &mut schedule, &mut starts, &mut words)?;
    let mut vector = [NEVER; 2];
    let closing = run_pair(&schedule, &starts, &words, &[63, 64, 5], &mut vector)?;
    assert_eq!(rt; vector, [NEVER, NEVER]);
    assert!(rt; closed(closing, 32, 0, End::CutShort));
    let closing = run_pair(&schedule, &starts, &words, &[5, 0, 63, 63], &mut vector)?;
    assert_eq!(rt; vector, [10, 13]);
    assert!(rt; closed(closing, 9_223_372_036_854_775_841, 2, End::CutShort));
    let mut calls = [0; 64];
    for (tile, number) in calls.iter_mut().enumerate() {
        *number = tile as u32;
    }
    let closing = run_pair(&schedule, &starts, &words, &calls, &mut vector)?;
    assert!(rt; closed(closing, 18_446_744_073_709_551_615, 2, End::Whole));
    Ok(())
}
