// The new numbering over one row and equal tile vectors, figures carried both ways, and every refusal.
use crate::is_fault;
use arithmetic::minutes::NEVER;
use checks::{Fault, Layer};
use matrix::pattern::Matrix;
use numbering::Numbering;
use numbering::ordering::order;
use numbering::remapping::remap;
use std::process::Abort;
use std::test::Fail;

const PATH: Matrix<'static> = Matrix {
    rows: 3,
    entries: 7,
    starts: &[0, 2, 5, 7],
    columns: &[0, 1, 1, 0, 2, 2, 1],
};

fn numbering<'a>(ranks: &'a [u32], rows_by_rank: &'a [u32]) -> Numbering<'a> {
    Numbering {
        ranks,
        rows_by_rank,
    }
}

// A matrix of which carrying sees the row starts.
fn starts_of(rows: u32, entries: u32, starts: &[u32]) -> Matrix<'_> {
    Matrix::new(rows, entries, starts, &[])
}

#[test]
fn one_row(rt: HostRuntime) -> Result<(), Fail> {
    let mut ranks = [9];
    let mut rows_by_rank = [9];
    let mut spare = [9];
    order(1, 2, &[255, 0], &mut ranks, &mut rows_by_rank, &mut spare)?;
    assert_eq!(rt; ranks, [0]);
    assert_eq!(rt; rows_by_rank, [0]);
    assert_eq!(rt; spare, [0]);
    Ok(())
}

// Rows 1 and 3 have 254 255, rows 0 and 2 have 255 0, row 4 has 255 255.
#[test]
fn equal_vectors_by_row_number(rt: HostRuntime) -> Result<(), Fail> {
    let mut ranks = [9; 5];
    let mut rows_by_rank = [9; 5];
    let mut spare = [9; 5];
    order(
        5,
        2,
        &[255, 254, 255, 254, 255, 0, 255, 0, 255, 255],
        &mut ranks,
        &mut rows_by_rank,
        &mut spare,
    )?;
    assert_eq!(rt; ranks, [2, 0, 3, 1, 4]);
    assert_eq!(rt; rows_by_rank, [1, 3, 0, 2, 4]);
    assert_eq!(rt; spare, [0; 5]);
    Ok(())
}

#[test]
fn the_reversed_path(rt: HostRuntime) -> Result<(), Fail> {
    let mut starts = [9; 4];
    let mut columns = [9; 7];
    let mut tiles = [9; 6];
    remap(
        &PATH,
        2,
        &[1, 0, 0, 1, 1, 0],
        &numbering(&[2, 1, 0], &[2, 1, 0]),
        &mut starts,
        &mut columns,
        &mut tiles,
    )?;
    assert_eq!(rt; starts, [0, 2, 5, 7]);
    assert_eq!(rt; columns, [0, 1, 1, 2, 0, 2, 1]);
    assert_eq!(rt; tiles, [0, 0, 1, 0, 1, 1]);
    Ok(())
}

// Row 1's part comes first, then row 2's, then row 0's.
#[test]
fn doubles_there_and_back(rt: HostRuntime) -> Result<(), Fail> {
    let values = [0.5, -0.25, 8.0];
    let mut there = [9.0; 3];
    let mut back = [9.0; 3];
    numbering(&[2, 0, 1], &[1, 2, 0]).carry_rows(3, &values, &mut there)?;
    numbering(&[2, 0, 1], &[1, 2, 0]).carry_rows_back(3, &there, &mut back)?;
    assert!(rt; there == [-0.25, 8.0, 0.5] && back == values);
    let coefficients = [0.5, 1.5, 2.5, 3.5, 4.5, 5.5, 6.5];
    let mut there = [9.0; 7];
    let mut back = [9.0; 7];
    numbering(&[2, 0, 1], &[1, 2, 0]).carry_entries(
        &starts_of(3, 7, &[0, 2, 5, 7]),
        &coefficients,
        &mut there,
    )?;
    numbering(&[2, 0, 1], &[1, 2, 0]).carry_entries_back(
        &starts_of(3, 7, &[0, 2, 5, 7]),
        &there,
        &mut back,
    )?;
    assert!(rt; there == [2.5, 3.5, 4.5, 5.5, 6.5, 0.5, 1.5] && back == coefficients);
    Ok(())
}

// The minutes of the path's links, 7 and 5, and 10, never, never.
#[test]
fn minutes_there_and_back(rt: HostRuntime) -> Result<(), Fail> {
    let values = [10, NEVER, NEVER];
    let mut there = [9; 3];
    let mut back = [9; 3];
    numbering(&[2, 1, 0], &[2, 1, 0]).carry_rows(3, &values, &mut there)?;
    numbering(&[2, 1, 0], &[2, 1, 0]).carry_rows_back(3, &there, &mut back)?;
    assert_eq!(rt; there, [NEVER, NEVER, 10]);
    assert_eq!(rt; back, values);
    let coefficients: [u32; 7] = [0, 7, 0, 7, 5, 0, 5];
    let mut there = [9; 7];
    let mut back = [9; 7];
    numbering(&[2, 1, 0], &[2, 1, 0]).carry_entries(
        &starts_of(3, 7, &[0, 2, 5, 7]),
        &coefficients,
        &mut there,
    )?;
    numbering(&[2, 1, 0], &[2, 1, 0]).carry_entries_back(
        &starts_of(3, 7, &[0, 2, 5, 7]),
        &there,
        &mut back,
    )?;
    assert_eq!(rt; there, [0, 5, 0, 7, 5, 0, 7]);
    assert_eq!(rt; back, coefficients);
    Ok(())
}

fn refused(rt: &impl Abort, answer: Result<(), Fault>, number: u8, place: usize) {
    assert!(rt; is_fault(answer.err(), Layer::Plan, number, place));
}

// Whether a table is as it was handed in, all 9, or all 8 where it holds tiles.
fn untouched(table: &[u32]) -> bool {
    table.iter().all(|number| *number == 9)
}

fn untouched_tiles(table: &[u8]) -> bool {
    table.iter().all(|tile| *tile == 8)
}

fn order_refused(
    rt: &impl Abort,
    rows: u32,
    sweeps: u32,
    cells: &[u8],
    ranks: &mut [u32],
    rows_by_rank: &mut [u32],
    spare: &mut [u32],
    number: u8,
    place: usize,
) {
    let answer = order(rows, sweeps, cells, ranks, rows_by_rank, spare);
    refused(rt, answer, number, place);
    assert!(rt; untouched(ranks) && untouched(rows_by_rank) && untouched(spare));
}

fn size_refused(rt: &impl Abort, rows: u32, sweeps: u32, place: usize) {
    order_refused(
        rt,
        rows,
        sweeps,
        &[7; 6],
        &mut [9; 3],
        &mut [9; 3],
        &mut [9; 3],
        1,
        place,
    );
}

#[test]
fn ordering_refuses_sizes(rt: HostRuntime) {
    size_refused(&rt, 0, 2, 1);
    size_refused(&rt, 1_048_577, 2, 1);
    size_refused(&rt, 3, 0, 3);
    size_refused(&rt, 3, 17, 3);
}

#[test]
fn ordering_refuses_lengths(rt: HostRuntime) {
    order_refused(
        &rt,
        3,
        2,
        &[7; 5],
        &mut [9; 2],
        &mut [9; 3],
        &mut [9; 3],
        2,
        4,
    );
    order_refused(
        &rt,
        3,
        2,
        &[7; 6],
        &mut [9; 2],
        &mut [9; 4],
        &mut [9; 3],
        2,
        6,
    );
    order_refused(
        &rt,
        3,
        2,
        &[7; 6],
        &mut [9; 3],
        &mut [9; 4],
        &mut [9; 2],
        2,
        7,
    );
    order_refused(
        &rt,
        3,
        2,
        &[7; 6],
        &mut [9; 3],
        &mut [9; 3],
        &mut [9; 4],
        2,
        8,
    );
}

fn remap_refused(
    rt: &impl Abort,
    matrix: &Matrix,
    sweeps: u32,
    cells: &[u8],
    numbering: &Numbering<'_>,
    number: u8,
    place: usize,
) {
    let mut starts = [9; 4];
    let mut columns = [9; 7];
    let mut tiles = [8; 6];
    let answer = remap(
        matrix,
        sweeps,
        cells,
        numbering,
        &mut starts,
        &mut columns,
        &mut tiles,
    );
    refused(rt, answer, number, place);
    assert_eq!(rt; starts, [9; 4]);
    assert_eq!(rt; columns, [9; 7]);
    assert_eq!(rt; tiles, [8; 6]);
}

fn of_tables<'a>(
    rt: &impl Abort,
    rows: u32,
    entries: u32,
    starts: &'a [u32],
    columns: &'a [u32],
    number: u8,
    place: usize,
) {
    let matrix = Matrix::new(rows, entries, starts, columns);
    remap_refused(
        rt,
        &matrix,
        2,
        &[7; 6],
        &numbering(&[2, 0, 1], &[1, 2, 0]),
        number,
        place,
    );
}

#[test]
fn remapping_refuses_sizes(rt: HostRuntime) {
    of_tables(&rt, 0, 7, &[0, 2, 5, 7], &[0, 1, 1, 0, 2, 2, 1], 1, 1);
    of_tables(&rt, 3, 0, &[0, 2, 5, 7], &[0, 1, 1, 0, 2, 2, 1], 1, 2);
    remap_refused(
        &rt,
        &PATH,
        0,
        &[7; 6],
        &numbering(&[2, 0, 1], &[1, 2, 0]),
        1,
        3,
    );
    remap_refused(
        &rt,
        &PATH,
        17,
        &[7; 6],
        &numbering(&[2, 0, 1], &[1, 2, 0]),
        1,
        3,
    );
}

#[test]
fn remapping_refuses_lengths(rt: HostRuntime) {
    of_tables(&rt, 3, 7, &[0, 2, 7], &[0, 1, 1, 0, 2, 2], 2, 1);
    of_tables(&rt, 3, 7, &[0, 2, 5, 7], &[0, 1, 1, 0, 2, 2], 2, 2);
    remap_refused(
        &rt,
        &PATH,
        2,
        &[7; 7],
        &numbering(&[2, 0], &[1, 2, 0]),
        2,
        4,
    );
    remap_refused(&rt, &PATH, 2, &[7; 6], &numbering(&[2, 0], &[1, 2]), 2, 6);
    remap_refused(
        &rt,
        &PATH,
        2,
        &[7; 6],
        &numbering(&[2, 0, 1], &[1, 2]),
        2,
        7,
    );
}

// The tables that are written have these lengths, the others are right.
fn new_tables_refused(
    rt: &impl Abort,
    starts: &mut [u32],
    columns: &mut [u32],
    tiles: &mut [u8],
    place: usize,
) {
    let answer = remap(
        &PATH,
        2,
        &[7; 6],
        &numbering(&[2, 0, 1], &[1, 2, 0]),
        starts,
        columns,
        tiles,
    );
    refused(rt, answer, 2, place);
    assert!(rt; untouched(starts) && untouched(columns) && untouched_tiles(tiles));
}

#[test]
fn remapping_refuses_new_lengths(rt: HostRuntime) {
    new_tables_refused(&rt, &mut [9; 3], &mut [9; 8], &mut [8; 6], 21);
    new_tables_refused(&rt, &mut [9; 4], &mut [9; 8], &mut [8; 5], 22);
    new_tables_refused(&rt, &mut [9; 4], &mut [9; 7], &mut [8; 5], 24);
}

#[test]
fn remapping_refuses_matrices(rt: HostRuntime) {
    of_tables(&rt, 3, 7, &[0, 5, 2, 7], &[0, 1, 1, 0, 2, 2, 3], 3, 2);
    of_tables(&rt, 3, 7, &[0, 2, 5, 6], &[0, 1, 1, 0, 2, 2, 1], 3, 3);
    of_tables(&rt, 3, 7, &[0, 2, 5, 7], &[1, 1, 1, 0, 2, 2, 3], 4, 6);
    of_tables(&rt, 3, 7, &[0, 2, 5, 7], &[0, 1, 1, 1, 2, 2, 1], 5, 1);
    of_tables(&rt, 3, 7, &[0, 2, 5, 7], &[0, 1, 1, 0, 2, 0, 1], 5, 2);
}

// Rank 3 is not below 3; at rank 1 stands row 2, not row 0.
#[test]
fn remapping_refuses_ranks(rt: HostRuntime) {
    remap_refused(
        &rt,
        &PATH,
        2,
        &[7; 6],
        &numbering(&[2, 3, 1], &[1, 2, 0]),
        7,
        1,
    );
    remap_refused(
        &rt,
        &PATH,
        2,
        &[7; 6],
        &numbering(&[1, 0, 1], &[1, 2, 0]),
        7,
        0,
    );
    remap_refused(
        &rt,
        &PATH,
        2,
        &[7; 6],
        &numbering(&[2, 0, 1], &[1, 0, 0]),
        7,
        2,
    );
}

fn rows_refused(
    rt: &impl Abort,
    rows: u32,
    numbering: &Numbering<'_>,
    vector: &[u32],
    new_vector: &mut [u32],
    number: u8,
    place: usize,
) {
    let answer = numbering.carry_rows(rows, vector, new_vector);
    refused(rt, answer, number, place);
    assert!(rt; untouched(new_vector));
}

#[test]
fn carrying_rows_refuses(rt: HostRuntime) {
    rows_refused(
        &rt,
        0,
        &numbering(&[2, 0, 1], &[1, 2, 0]),
        &[4; 3],
        &mut [9; 3],
        1,
        1,
    );
    rows_refused(
        &rt,
        3,
        &numbering(&[2, 0], &[1, 2]),
        &[4; 3],
        &mut [9; 3],
        2,
        6,
    );
    rows_refused(
        &rt,
        3,
        &numbering(&[2, 0, 1], &[1, 2]),
        &[4; 2],
        &mut [9; 3],
        2,
        7,
    );
    rows_refused(
        &rt,
        3,
        &numbering(&[2, 0, 1], &[1, 2, 0]),
        &[4; 2],
        &mut [9; 2],
        2,
        14,
    );
    rows_refused(
        &rt,
        3,
        &numbering(&[2, 0, 1], &[1, 2, 0]),
        &[4; 3],
        &mut [9; 4],
        2,
        34,
    );
    rows_refused(
        &rt,
        3,
        &numbering(&[2, 0, 3], &[1, 2, 0]),
        &[4; 3],
        &mut [9; 3],
        7,
        2,
    );
    rows_refused(
        &rt,
        3,
        &numbering(&[2, 0, 1], &[1, 2, 1]),
        &[4; 3],
        &mut [9; 3],
        7,
        0,
    );
}

fn rows_back_refused(
    rt: &impl Abort,
    ranks: &[u32],
    new_vector: &[u32],
    vector: &mut [u32],
    number: u8,
    place: usize,
) {
    let answer = numbering(ranks, &[1, 2, 0]).carry_rows_back(3, new_vector, vector);
    refused(rt, answer, number, place);
    assert!(rt; untouched(vector));
}

#[test]
fn carrying_rows_back_refuses(rt: HostRuntime) {
    rows_back_refused(&rt, &[2, 0, 1], &[4; 2], &mut [9; 2], 2, 14);
    rows_back_refused(&rt, &[2, 0, 1], &[4; 2], &mut [9; 3], 2, 34);
    rows_back_refused(&rt, &[3, 0, 1], &[4; 3], &mut [9; 3], 7, 0);
    rows_back_refused(&rt, &[2, 1, 1], &[4; 3], &mut [9; 3], 7, 1);
}

fn entries_refused(
    rt: &impl Abort,
    starts: &[u32],
    numbering: &Numbering<'_>,
    coefficients: &[u32],
    new_coefficients: &mut [u32],
    number: u8,
    place: usize,
) {
    let answer = numbering.carry_entries(&starts_of(2, 3, starts), coefficients, new_coefficients);
    refused(rt, answer, number, place);
    assert!(rt; untouched(new_coefficients));
}

#[test]
fn carrying_entries_refuses(rt: HostRuntime) {
    let short = numbering(&[1], &[1, 0]);
    entries_refused(&rt, &[0, 3], &short, &[4; 3], &mut [9; 3], 2, 1);
    let both_short = numbering(&[1], &[1]);
    entries_refused(&rt, &[0, 2, 3], &both_short, &[4; 3], &mut [9; 3], 2, 6);
    let fewer_rows = numbering(&[1, 0], &[1]);
    entries_refused(&rt, &[0, 2, 3], &fewer_rows, &[4; 2], &mut [9; 3], 2, 7);
    let swapped = numbering(&[1, 0], &[1, 0]);
    entries_refused(&rt, &[0, 2, 3], &swapped, &[4; 2], &mut [9; 2], 2, 12);
    entries_refused(&rt, &[0, 2, 3], &swapped, &[4; 3], &mut [9; 4], 2, 32);
    let past_the_end = numbering(&[1, 2], &[1, 0]);
    entries_refused(&rt, &[0, 4, 3], &past_the_end, &[4; 3], &mut [9; 3], 3, 2);
    entries_refused(&rt, &[0, 2, 3], &past_the_end, &[4; 3], &mut [9; 3], 7, 1);
    let other_row = numbering(&[0, 1], &[1, 0]);
    entries_refused(&rt, &[0, 2, 3], &other_row, &[4; 3], &mut [9; 3], 7, 0);
}

fn entries_back_refused(
    rt: &impl Abort,
    rows: u32,
    entries: u32,
    ranks: &[u32],
    new_coefficients: &[u32],
    coefficients: &mut [u32],
    number: u8,
    place: usize,
) {
    let answer = numbering(ranks, &[1, 0]).carry_entries_back(
        &starts_of(rows, entries, &[0, 2, 3]),
        new_coefficients,
        coefficients,
    );
    refused(rt, answer, number, place);
    assert!(rt; untouched(coefficients));
}

#[test]
fn carrying_entries_back_refuses(rt: HostRuntime) {
    entries_back_refused(&rt, 0, 3, &[1, 0], &[4; 3], &mut [9; 3], 1, 1);
    entries_back_refused(&rt, 2, 0, &[1, 0], &[4; 3], &mut [9; 3], 1, 2);
    entries_back_refused(&rt, 2, 3, &[1, 0], &[4; 2], &mut [9; 2], 2, 12);
    entries_back_refused(&rt, 2, 3, &[1, 0], &[4; 2], &mut [9; 3], 2, 32);
    entries_back_refused(&rt, 2, 3, &[2, 0], &[4; 3], &mut [9; 3], 7, 0);
    entries_back_refused(&rt, 2, 3, &[1, 1], &[4; 3], &mut [9; 3], 7, 1);
}
