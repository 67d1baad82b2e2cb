// Growing at the ends of its sizes, over one row, equal seeds and one-way links, and refused.
use crate::is_fault;
use checks::Layer;
use growing::{Seeding, grow};
use matrix::pattern::Matrix;
use std::process::Abort;
use std::test::Fail;

const PATH: Matrix<'static> = Matrix {
    rows: 3,
    entries: 7,
    starts: &[0, 2, 5, 7],
    columns: &[0, 1, 1, 0, 2, 2, 1],
};

// Row 0 stores column 1, row 1 does not store column 0.
const ONE_WAY: Matrix<'static> = Matrix {
    rows: 2,
    entries: 3,
    starts: &[0, 2, 3],
    columns: &[0, 1, 1],
};

const PAIR: Matrix<'static> = Matrix {
    rows: 2,
    entries: 4,
    starts: &[0, 2, 4],
    columns: &[0, 1, 1, 0],
};

const ONE_ROW: Matrix<'static> = Matrix {
    rows: 1,
    entries: 1,
    starts: &[0, 1],
    columns: &[0],
};

fn seeding(sweeps: u32, tiles: u32, seed_sweep: u32, seed: &[u8]) -> Seeding<'_> {
    Seeding {
        sweeps,
        tiles,
        seed_sweep,
        seed,
    }
}

// Row 1 comes before row 0, so in sweep 1 neither may pass row 1's 0.
#[test]
fn most_tiles_and_the_last_sweep(rt: HostRuntime) -> Result<(), Fail> {
    let mut tile_table = [9; 4];
    let mut marks = [9; 4];
    grow(
        &PAIR,
        &seeding(2, 64, 2, &[63, 0]),
        &mut tile_table,
        &mut marks,
    )?;
    assert_eq!(rt; tile_table, [0, 0, 63, 0]);
    assert_eq!(rt; marks, [0, 2, 0, 1]);
    Ok(())
}

#[test]
fn one_row(rt: HostRuntime) -> Result<(), Fail> {
    let mut tile_table = [9; 16];
    let mut marks = [9];
    grow(
        &ONE_ROW,
        &seeding(16, 64, 16, &[63]),
        &mut tile_table,
        &mut marks,
    )?;
    assert_eq!(rt; tile_table, [63; 16]);
    assert_eq!(rt; marks, [0]);
    Ok(())
}

#[test]
fn all_of_one_tile(rt: HostRuntime) -> Result<(), Fail> {
    let mut tile_table = [9; 9];
    let mut marks = [9; 7];
    grow(
        &PATH,
        &seeding(3, 6, 2, &[5, 5, 5]),
        &mut tile_table,
        &mut marks,
    )?;
    assert_eq!(rt; tile_table, [5; 9]);
    assert_eq!(rt; marks, [0; 7]);
    Ok(())
}

// Whichever row comes before, the lower is lifted to the other's 1 in sweep 2; from sweep 2 down both are held to 0.
#[test]
fn one_way_links(rt: HostRuntime) -> Result<(), Fail> {
    let mut tile_table = [9; 4];
    let mut marks = [9; 3];
    grow(
        &ONE_WAY,
        &seeding(2, 2, 1, &[0, 1]),
        &mut tile_table,
        &mut marks,
    )?;
    assert_eq!(rt; tile_table, [0, 1, 1, 1]);
    assert_eq!(rt; marks, [0, 1, 0]);
    grow(
        &ONE_WAY,
        &seeding(2, 2, 1, &[1, 0]),
        &mut tile_table,
        &mut marks,
    )?;
    assert_eq!(rt; tile_table, [1, 0, 1, 1]);
    assert_eq!(rt; marks, [0, 2, 0]);
    grow(
        &ONE_WAY,
        &seeding(2, 2, 2, &[1, 0]),
        &mut tile_table,
        &mut marks,
    )?;
    assert_eq!(rt; tile_table, [0, 0, 1, 0]);
    assert_eq!(rt; marks, [0, 2, 0]);
    Ok(())
}

fn refused(rt: &impl Abort, matrix: &Matrix, seeding: &Seeding<'_>, number: u8, place: usize) {
    let mut tile_table = [9; 6];
    let mut marks = [8; 7];
    let answer = grow(matrix, seeding, &mut tile_table, &mut marks);
    assert!(rt; is_fault(answer.err(), Layer::Matrix, number, place));
    assert_eq!(rt; tile_table, [9; 6]);
    assert_eq!(rt; marks, [8; 7]);
}

fn of_sizes(rt: &impl Abort, rows: u32, entries: u32, number: u8, place: usize) {
    let matrix = Matrix::new(rows, entries, &[0, 2, 5, 7], &[0, 1, 1, 0, 2, 2, 1]);
    refused(rt, &matrix, &seeding(2, 2, 1, &[1, 0, 0]), number, place);
}

#[test]
fn refused_sizes(rt: HostRuntime) {
    of_sizes(&rt, 0, 7, 1, 1);
    of_sizes(&rt, 1_048_577, 7, 1, 1);
    of_sizes(&rt, 3, 0, 1, 2);
    of_sizes(&rt, 3, 16_777_217, 1, 2);
    refused(&rt, &PATH, &seeding(0, 2, 1, &[1, 0, 0]), 1, 3);
    refused(&rt, &PATH, &seeding(17, 2, 1, &[1, 0, 0]), 1, 3);
    refused(&rt, &PATH, &seeding(2, 0, 1, &[1, 0, 0]), 1, 4);
    refused(&rt, &PATH, &seeding(2, 65, 1, &[1, 0, 0]), 1, 4);
    refused(&rt, &PATH, &seeding(2, 2, 0, &[1, 0, 0]), 1, 5);
    refused(&rt, &PATH, &seeding(2, 2, 3, &[1, 0, 0]), 1, 5);
}

fn of_tables<'a>(rt: &impl Abort, starts: &'a [u32], columns: &'a [u32], number: u8, place: usize) {
    let matrix = Matrix::new(3, 7, starts, columns);
    refused(rt, &matrix, &seeding(2, 2, 1, &[1, 0, 0]), number, place);
}

#[test]
fn refused_lengths(rt: HostRuntime) {
    of_tables(&rt, &[0, 2, 7], &[0, 1, 1, 0, 2, 2], 2, 1);
    of_tables(&rt, &[0, 2, 5, 7], &[0, 1, 1, 0, 2, 2], 2, 2);
    refused(&rt, &PATH, &seeding(2, 2, 1, &[1, 0]), 2, 3);
    refused(&rt, &PATH, &seeding(2, 2, 1, &[1, 0, 0, 0]), 2, 3);
    refused(&rt, &PATH, &seeding(3, 2, 1, &[1, 0, 0]), 2, 4);
    let mut tile_table = [9; 6];
    let mut marks = [8; 6];
    let answer = grow(
        &PATH,
        &seeding(2, 2, 1, &[1, 0, 0]),
        &mut tile_table,
        &mut marks,
    );
    assert!(rt; is_fault(answer.err(), Layer::Matrix, 2, 5));
    assert_eq!(rt; tile_table, [9; 6]);
    assert_eq!(rt; marks, [8; 6]);
}

#[test]
fn refused_matrices(rt: HostRuntime) {
    of_tables(&rt, &[1, 2, 5, 7], &[0, 1, 1, 0, 2, 2, 1], 3, 0);
    of_tables(&rt, &[0, 5, 2, 7], &[0, 1, 1, 0, 2, 2, 1], 3, 2);
    of_tables(&rt, &[0, 2, 5, 6], &[0, 1, 1, 0, 2, 2, 1], 3, 3);
    of_tables(&rt, &[0, 2, 5, 7], &[0, 1, 1, 0, 3, 2, 3], 4, 4);
    of_tables(&rt, &[0, 2, 5, 7], &[0, 1, 1, 1, 2, 2, 1], 5, 1);
    of_tables(&rt, &[0, 2, 5, 7], &[0, 1, 1, 0, 2, 1, 1], 5, 2);
}

// The seed is looked at last.
#[test]
fn refused_seeds(rt: HostRuntime) {
    refused(&rt, &PATH, &seeding(2, 2, 1, &[1, 2, 255]), 6, 1);
    refused(&rt, &PATH, &seeding(2, 64, 2, &[63, 63, 64]), 6, 2);
    let matrix = Matrix::new(3, 7, &[0, 2, 5, 7], &[1, 1, 1, 0, 2, 2, 1]);
    refused(&rt, &matrix, &seeding(2, 1, 1, &[1, 0, 0]), 5, 0);
}
