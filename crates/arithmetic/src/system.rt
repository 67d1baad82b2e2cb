// A matrix with its coefficients and its right-hand side, lent.
ghost use Rattle.std.specs.Prelude.{◌≡◌};
ghost use Rattle.matrix.specs.Lent.{pattern_of};
ghost use Rattle.arithmetic.specs.Lent.{equations_of};

use matrix::pattern::Matrix;

#[derive(Clone, Copy)]
pub struct System<'a, C, V> {
    pub matrix: Matrix<'a>,
    pub coefficients: &'a [C],
    pub right_hand_side: &'a [V],
}

impl<'a, C, V> System<'a, C, V> {
    pub fn new(
        matrix: Matrix<'a>,
        coefficients: &'a [C],
        right_hand_side: &'a [V],
    ) -> System<'a, C, V>
        ensures { equations_of result ≡ record { pattern = pattern_of matrix.entry; coefficients = coefficients.now; rhs = right_hand_side.now } }
    {
        System {
            matrix,
            coefficients,
            right_hand_side,
        }
    }
}
