// The update of one row, and the plain sweep.
ghost use Rattle.std.specs.Prelude.{◌≡◌, ◌+◌, length};
ghost use Rattle.std.specs.List.{zip};
ghost use Rattle.std.specs.Result.{result_err};
ghost use Rattle.checks.specs.Verdicts.{unless_refused};
ghost use Rattle.matrix.specs.Lent.{pattern_of};
ghost use Rattle.arithmetic.specs.Sweeps.{row_value_of, updated, swept, plain, shape_fault, sweeping_fault};
ghost use Rattle.arithmetic.specs.Lent.{equations_of};

use crate::Arithmetic;
use crate::admitting::{check_coefficients, check_values};
use crate::system::System;
use checks::{Check, Fault, Layer};
use matrix::sizes::Size;
use matrix::tables::Table;

// A row's new value from its entries, its right-hand side and the present values.
pub fn row_value<K: Arithmetic>(
    arithmetic: &K,
    row: u32,
    columns: &[u32],
    coefficients: &[K::Coefficient],
    right_hand_side: K::Value,
    vector: &[K::Value],
) -> K::Value
    ensures { result ≡ row_value_of (K.means arithmetic.now) row (zip columns.now coefficients.now) right_hand_side vector.now }
{
    let mut acc = right_hand_side;
    let mut diagonal = None;
    for (column, coefficient) in columns.iter().zip(coefficients.iter()) {
        if *column == row {
            diagonal = Some(*coefficient);
        } else if let Some(value) = vector.get(*column as usize) {
            acc = arithmetic.take_in(acc, *coefficient, *value);
        }
    }
    match diagonal {
        Some(d) => arithmetic.finish(acc, d),
        None => acc,
    }
}

// Updates one row in place; a row with no right-hand side or no value is left alone.
// Kept: callers have the arithmetic and the system apart, so a value of both would be made at a call and taken apart in it.
pub fn update<K: Arithmetic>(
    arithmetic: &K,
    system: &System<'_, K::Coefficient, K::Value>,
    row: u32,
    vector: &mut [K::Value],
)
    ensures { vector.new ≡ updated (K.means arithmetic.now) (equations_of system.now) vector.old row }
{
    let at = row as usize;
    if at < system.right_hand_side.len() && at < vector.len() {
        let columns = system.matrix.row(system.matrix.columns, row);
        let coefficients = system.matrix.row(system.coefficients, row);
        let value = row_value(
            arithmetic,
            row,
            columns,
            coefficients,
            system.right_hand_side[at],
            vector,
        );
        vector[at] = value;
    }
}

// One plain sweep, rows rising.
pub fn sweep<K: Arithmetic>(
    arithmetic: &K,
    system: &System<'_, K::Coefficient, K::Value>,
    vector: &mut [K::Value],
)
    ensures { vector.new ≡ swept (K.means arithmetic.now) (equations_of system.now) vector.old }
{
    for row in 0..system.matrix.rows {
        update(arithmetic, system, row, vector);
    }
}

fn check_shape<C, V>(system: &System<'_, C, V>, sweeps: u32, vector: &[V]) -> Result<(), Fault>
    ensures { result_err result ≡ shape_fault (pattern_of system.now.matrix) sweeps (length system.now.coefficients.now) (length system.now.right_hand_side.now) (length vector.now) }
{
    let layer = Layer::Matrix;
    let matrix = &system.matrix;
    let rows = matrix.rows as usize;
    let entries = matrix.entries as usize;
    Size::Rows(matrix.rows).check(layer)?;
    Size::Entries(matrix.entries).check(layer)?;
    Size::Sweeps(sweeps).check(layer)?;
    Table::RowStarts.check_length(matrix.starts.len(), rows + 1, layer)?;
    Table::Columns.check_length(matrix.columns.len(), entries, layer)?;
    Table::Coefficients.check_length(system.coefficients.len(), entries, layer)?;
    Table::RightHandSide.check_length(system.right_hand_side.len(), rows, layer)?;
    Table::Vector.check_length(vector.len(), rows, layer)
}

fn check_sweeping<K: Arithmetic>(
    arithmetic: &K,
    system: &System<'_, K::Coefficient, K::Value>,
    sweeps: u32,
    vector: &[K::Value],
) -> Result<(), Fault>
    ensures { result_err result ≡ sweeping_fault (K.means arithmetic.now) (equations_of system.now) sweeps vector.now }
{
    check_shape(system, sweeps, vector)?;
    system.matrix.check(Layer::Matrix)?;
    check_coefficients(arithmetic, &system.matrix, system.coefficients, Layer::Run)?;
    check_values(
        arithmetic,
        system.right_hand_side,
        Check::RightHandSide,
        Layer::Run,
    )?;
    check_values(arithmetic, vector, Check::Vector, Layer::Run)
}

// Sweeps the vector plainly, or refuses and leaves it as it was.
pub fn sweep_plainly<K: Arithmetic>(
    arithmetic: &K,
    system: &System<'_, K::Coefficient, K::Value>,
    sweeps: u32,
    vector: &mut [K::Value],
) -> Result<(), Fault>
    ensures answer { result_err result ≡ sweeping_fault (K.means arithmetic.now) (equations_of system.now) sweeps vector.old }
    ensures values { vector.new ≡ unless_refused (sweeping_fault (K.means arithmetic.now) (equations_of system.now) sweeps vector.old) (plain (K.means arithmetic.now) (equations_of system.now) vector.old sweeps) vector.old }
{
    check_sweeping(arithmetic, system, sweeps, vector)?;
    for _sweep in 0..sweeps {
        sweep(arithmetic, system, vector);
    }
    Ok(())
}
