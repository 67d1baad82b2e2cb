// A tiled system: what a run is made over.
ghost use Rattle.std.specs.Prelude.{◌≡◌, length};
ghost use Rattle.std.specs.Result.{result_err};
ghost use Rattle.arithmetic.specs.Lent.{equations_of};
ghost use Rattle.plans.specs.Held.{tiling_held};
ghost use Rattle.runs.specs.Calls.{lengths_fault};
ghost use Rattle.runs.specs.Held.{equations_held};

use arithmetic::Arithmetic;
use arithmetic::system::System;
use checks::{Fault, Layer};
use matrix::tables::Table;
use plans::plan::Plan;

// A plan with the arithmetic and the figures that it is run with. Lent; runs check the figures.
#[derive_where(Clone, Copy)]
pub struct TiledSystem<'p, K: Arithmetic> {
    pub arithmetic: &'p K,
    pub plan: &'p Plan<'p>,
    pub coefficients: &'p [K::Coefficient],
    pub right_hand_side: &'p [K::Value],
}

impl<'p, K: Arithmetic> TiledSystem<'p, K> {
    pub(crate) fn equations(&self) -> System<'p, K::Coefficient, K::Value>
        ensures { equations_of result ≡ equations_held self.now }
    {
        System::new(self.plan.matrix(), self.coefficients, self.right_hand_side)
    }

    // The lengths of the figures, and of a vector.
    pub(crate) fn check_lengths(&self, vector: usize) -> Result<(), Fault>
        ensures { result_err result ≡ lengths_fault (tiling_held self.now.plan.now).pattern (length self.now.coefficients.now) (length self.now.right_hand_side.now) vector }
    {
        let rows = self.plan.rows() as usize;
        let entries = self.plan.entries() as usize;
        Table::NewCoefficients.check_length(self.coefficients.len(), entries, Layer::Run)?;
        Table::NewRightHandSide.check_length(self.right_hand_side.len(), rows, Layer::Run)?;
        Table::NewVector.check_length(vector, rows, Layer::Run)
    }
}
