// Plain sweeps over small systems.
use crate::is_fault;
use arithmetic::doubles::Doubles;
use arithmetic::minutes::{Minutes, NEVER};
use arithmetic::sweeping::sweep_plainly;
use arithmetic::system::System;
use checks::{Fault, Layer};
use matrix::pattern::Matrix;
use std::test::Fail;

const STARTS: [u32; 4] = [0, 2, 5, 7];

const COLUMNS: [u32; 7] = [0, 1, 1, 0, 2, 2, 1];

const COEFFICIENTS: [f64; 7] = [2.0, -1.0, 2.0, -1.0, -1.0, 2.0, -1.0];

fn sweep_path<'a>(
    columns: &'a [u32],
    right_hand_side: &'a [f64],
    sweeps: u32,
    vector: &mut [f64],
) -> Result<(), Fault> {
    let matrix = Matrix::new(3, 7, &STARTS, columns);
    let system = System::new(matrix, &COEFFICIENTS, right_hand_side);
    sweep_plainly(&Doubles, &system, sweeps, vector)
}

#[test]
fn in_its_own_order(rt: HostRuntime) {
    let mut vector = [0.0, 0.0, 0.0];
    assert!(rt; sweep_path(&COLUMNS, &[4.0, 0.0, 8.0], 1, &mut vector).is_ok());
    assert!(rt; vector == [2.0, 1.0, 4.5]);
}

#[test]
fn in_the_reversed_numbering(rt: HostRuntime) {
    let columns = [0, 1, 1, 2, 0, 2, 1];
    let mut vector = [0.0, 0.0, 0.0];
    assert!(rt; sweep_path(&columns, &[8.0, 0.0, 4.0], 1, &mut vector).is_ok());
    assert!(rt; vector == [4.0, 2.0, 3.0]);
    assert!(rt; sweep_path(&columns, &[8.0, 0.0, 4.0], 1, &mut vector).is_ok());
    assert!(rt; vector == [5.0, 4.0, 4.0]);
}

const WEIGHTS: [f64; 7] = [1.0, -1.0, -1.0, -1.0, 1.0, 1.0, 1.0];

const FIGURES: [f64; 4] = [0.0, 1e16, 1.0, -1e16];

// The first row's new value with its neighbours stored in this order; their values are 1e16, 1 and -1e16.
fn summed(columns: &[u32]) -> Result<f64, Fault> {
    let matrix = Matrix::new(4, 7, &[0, 4, 5, 6, 7], columns);
    let system = System::new(matrix, &WEIGHTS, &FIGURES);
    let mut vector = FIGURES;
    sweep_plainly(&Doubles, &system, 1, &mut vector)?;
    Ok(vector[0])
}

// In binary64 1e16 + 1 - 1e16 is 0, and 1e16 - 1e16 + 1 is 1.
#[test]
fn stored_order_counts(rt: HostRuntime) -> Result<(), Fail> {
    assert!(rt; summed(&[0, 1, 2, 3, 1, 2, 3])? == 0.0);
    assert!(rt; summed(&[0, 1, 3, 2, 1, 2, 3])? == 1.0);
    Ok(())
}

#[test]
fn infinite_and_not_a_number(rt: HostRuntime) {
    let coefficients = [1e-300, 1e300, 1e-300, -1e300, 1.0, 1.0, -1.0];
    let mut vector = [0.0, 0.0, 0.0];
    let matrix = Matrix::new(3, 7, &[0, 2, 4, 7], &[0, 1, 1, 0, 2, 0, 1]);
    let system = System::new(matrix, &coefficients, &[1e300, 1e300, 1.0]);
    assert!(rt; sweep_plainly(&Doubles, &system, 1, &mut vector).is_ok());
    assert!(rt; vector[0] > 1e308 && vector[1] > 1e308 && vector[2].is_nan());
}

#[test]
fn minutes_arrive(rt: HostRuntime) {
    let mut vector = [NEVER, NEVER, NEVER];
    let matrix = Matrix::new(3, 7, &STARTS, &COLUMNS);
    let system = System::new(matrix, &[0, 7, 0, 7, 5, 0, 5], &[10, NEVER, NEVER]);
    assert!(rt; sweep_plainly(&Minutes, &system, 1, &mut vector).is_ok());
    assert!(rt; vector[0] == 10 && vector[1] == 17 && vector[2] == 22);
}

#[test]
fn latest_minute(rt: HostRuntime) {
    let mut vector = [NEVER, NEVER];
    let matrix = Matrix::new(2, 3, &[0, 1, 3], &[0, 1, 0]);
    let system = System::new(matrix, &[0, 0, 4], &[4_294_967_290, NEVER]);
    assert!(rt; sweep_plainly(&Minutes, &system, 1, &mut vector).is_ok());
    assert!(rt; vector[1] == 4_294_967_294);
    let system = System::new(matrix, &[0, 0, 5], &[4_294_967_290, NEVER]);
    assert!(rt; sweep_plainly(&Minutes, &system, 1, &mut vector).is_ok());
    assert!(rt; vector[1] == NEVER);
}

#[test]
fn refusals_leave_the_vector(rt: HostRuntime) {
    let mut vector = [1.0, 2.0, 3.0];
    assert!(rt;
        is_fault(
            sweep_path(&COLUMNS, &[4.0, 0.0, 8.0], 0, &mut vector).err(),
            1,
            3,
            Layer::Matrix,
        )
    );
    assert!(rt;
        is_fault(
            sweep_path(&COLUMNS, &[4.0, 0.0, 8.0], 17, &mut vector).err(),
            1,
            3,
            Layer::Matrix,
        )
    );
    assert!(rt;
        is_fault(
            sweep_path(&COLUMNS, &[4.0, 0.0], 1, &mut vector).err(),
            2,
            13,
            Layer::Matrix,
        )
    );
    assert!(rt;
        is_fault(
            sweep_path(&[0, 1, 1, 0, 3, 2, 1], &[4.0, 0.0, 8.0], 1, &mut vector).err(),
            4,
            4,
            Layer::Matrix,
        )
    );
    assert!(rt;
        is_fault(
            sweep_path(&COLUMNS, &[4.0, 1.0 / 0.0, 8.0], 1, &mut vector).err(),
            14,
            1,
            Layer::Run,
        )
    );
    assert!(rt; vector == [1.0, 2.0, 3.0]);
}
