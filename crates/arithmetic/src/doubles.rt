// Figures as IEEE 754 binary64 numbers.
ghost use Rattle.arithmetic.specs.Kinds.{doubles};

use crate::Arithmetic;

#[derive(Clone, Copy)]
pub struct Doubles;

impl Arithmetic for Doubles {
    type Coefficient = f64;

    type Value = f64;

    ghost means = { λ _. doubles };

    fn coefficient_admissible(&self, coefficient: f64) -> bool {
        coefficient.is_finite()
    }

    fn value_admissible(&self, value: f64) -> bool {
        value.is_finite()
    }

    fn diagonal_usable(&self, diagonal: f64) -> bool {
        diagonal.is_finite() && diagonal != 0.0
    }

    fn take_in(&self, acc: f64, coefficient: f64, value: f64) -> f64 {
        acc - coefficient * value
    }

    fn finish(&self, acc: f64, diagonal: f64) -> f64 {
        acc / diagonal
    }
}
