// A matrix that has passed the checks.
ghost use Rattle.std.proofs.Props.{props};
ghost use Rattle.matrix.specs.Lent.{pattern_of};
ghost use Rattle.growing.specs.Marks.{Sound};

use matrix::pattern::Matrix;

#[derive(Clone, Copy)]
pub(crate) struct SoundMatrix<'a> {
    pub(crate) matrix: Matrix<'a>,
    ghost sound: { Sound (pattern_of matrix) } by { Prim.hlevel props },
}
