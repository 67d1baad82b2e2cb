// Which figures a run may be begun with.
ghost use Rattle.std.specs.Prelude.{◌≡◌, not, position};
ghost use Rattle.std.specs.Result.{result_err};
ghost use Rattle.matrix.specs.Lent.{pattern_of};
ghost use Rattle.arithmetic.specs.Admitting.{bad_at, coefficients_fault, values_fault};

use crate::Arithmetic;
use checks::{Check, Fault, Layer};
use matrix::pattern::Matrix;

// Whether the coefficient of entry e may not stand there.
fn is_bad_coefficient<K: Arithmetic>(
    arithmetic: &K,
    matrix: &Matrix<'_>,
    e: usize,
    coefficient: K::Coefficient,
) -> bool
    ensures { result ≡ bad_at (K.means arithmetic.now) (pattern_of matrix.now) e coefficient }
{
    !arithmetic.coefficient_admissible(coefficient)
        || (matrix.is_diagonal(e) && !arithmetic.diagonal_usable(coefficient))
}

pub fn check_coefficients<K: Arithmetic>(
    arithmetic: &K,
    matrix: &Matrix<'_>,
    coefficients: &[K::Coefficient],
    layer: Layer,
) -> Result<(), Fault>
    ensures { result_err result ≡ coefficients_fault layer (K.means arithmetic.now) (pattern_of matrix.now) coefficients.now }
{
    for (e, coefficient) in coefficients.iter().enumerate() {
        let bad = is_bad_coefficient(arithmetic, matrix, e, *coefficient);
        Check::Coefficient.refuse_if(bad, e, layer)?;
    }
    Ok(())
}

// The first row whose value is not admissible.
fn bad_row<K: Arithmetic>(arithmetic: &K, values: &[K::Value]) -> Option<usize>
    ensures { result ≡ position (λ v. not ((K.means arithmetic.now).value_admissible v)) values.now }
{
    values
        .iter()
        .position(|value| !arithmetic.value_admissible(*value))
}

// `check` says which list the values are of.
pub fn check_values<K: Arithmetic>(
    arithmetic: &K,
    values: &[K::Value],
    check: Check,
    layer: Layer,
) -> Result<(), Fault>
    ensures { result_err result ≡ values_fault layer check (K.means arithmetic.now) values.now }
{
    check.refuse_found(bad_row(arithmetic, values), layer)
}
