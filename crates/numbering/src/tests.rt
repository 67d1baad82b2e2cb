// Examples run: ordering with equal tile vectors and bytes up to 255, a refusal, remapping a path, and pairs carried both ways.
use crate::Numbering;
use crate::ordering::order;
use crate::remapping::remap;
use checks::{Check, Fault, Layer};
use matrix::pattern::Matrix;
use std::test::Fail;

#[test]
fn orders_rows(rt: HostRuntime) -> Result<(), Fail> {
    let mut ranks = [9; 4];
    let mut rows_by_rank = [9; 4];
    let mut spare = [9; 4];
    order(
        4,
        2,
        &[255, 0, 255, 0, 3, 255, 3, 7],
        &mut ranks,
        &mut rows_by_rank,
        &mut spare,
    )?;
    assert_eq!(rt; ranks, [2, 1, 3, 0]);
    assert_eq!(rt; rows_by_rank, [3, 1, 0, 2]);
    assert_eq!(rt; spare, [0; 4]);
    Ok(())
}

#[test]
fn refuses_before_it_writes(rt: HostRuntime) {
    let mut ranks = [9];
    let mut rows_by_rank = [9];
    let mut spare = [9, 9];
    let refused = order(1, 1, &[0], &mut ranks, &mut rows_by_rank, &mut spare);
    assert_eq!(rt;
        refused,
        Err(Fault {
            check: Check::Length,
            place: 8,
            layer: Layer::Plan,
        })
    );
    assert_eq!(rt; ranks, [9]);
    assert_eq!(rt; rows_by_rank, [9]);
    assert_eq!(rt; spare, [9, 9]);
    let numbering = Numbering {
        ranks: &[2, 0, 1],
        rows_by_rank: &[1, 0, 0],
    };
    let refused = numbering.carry_rows(3, &[5, 6, 7], &mut [0; 3]);
    assert_eq!(rt;
        refused,
        Err(Fault {
            check: Check::Rank,
            place: 2,
            layer: Layer::Plan,
        })
    );
}

#[test]
fn remaps_a_path(rt: HostRuntime) -> Result<(), Fail> {
    let matrix = Matrix {
        rows: 3,
        entries: 7,
        starts: &[0, 2, 5, 7],
        columns: &[0, 1, 1, 0, 2, 2, 1],
    };
    let numbering = Numbering {
        ranks: &[2, 0, 1],
        rows_by_rank: &[1, 2, 0],
    };
    let mut starts = [9; 4];
    let mut columns = [9; 7];
    let mut tiles = [9; 6];
    remap(
        &matrix,
        2,
        &[0, 0, 0, 1, 0, 0],
        &numbering,
        &mut starts,
        &mut columns,
        &mut tiles,
    )?;
    assert_eq!(rt; starts, [0, 3, 5, 7]);
    assert_eq!(rt; columns, [0, 2, 1, 1, 0, 2, 0]);
    assert_eq!(rt; tiles, [0, 0, 0, 0, 0, 1]);
    Ok(())
}

#[test]
fn carries_pairs_both_ways(rt: HostRuntime) -> Result<(), Fail> {
    let pairs = [(1, 'a'), (2, 'b'), (3, 'c')];
    let mut there = [(0, ' '); 3];
    let mut back = [(0, ' '); 3];
    let numbering = Numbering {
        ranks: &[2, 0, 1],
        rows_by_rank: &[1, 2, 0],
    };
    numbering.carry_rows(3, &pairs, &mut there)?;
    numbering.carry_rows_back(3, &there, &mut back)?;
    assert_eq!(rt; there, [(2, 'b'), (3, 'c'), (1, 'a')]);
    assert_eq!(rt; back, pairs);
    let matrix = Matrix {
        rows: 2,
        entries: 3,
        starts: &[0, 2, 3],
        columns: &[],
    };
    let numbering = Numbering {
        ranks: &[1, 0],
        rows_by_rank: &[1, 0],
    };
    numbering.carry_entries(&matrix, &pairs, &mut there)?;
    numbering.carry_entries_back(&matrix, &there, &mut back)?;
    assert_eq!(rt; there, [(3, 'c'), (1, 'a'), (2, 'b')]);
    assert_eq!(rt; back, pairs);
    Ok(())
}
