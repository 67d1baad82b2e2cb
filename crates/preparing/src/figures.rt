// The figures in the new numbering, and back.
ghost use Rattle.std.specs.Prelude.{◌≡◌, length};
ghost use Rattle.checks.specs.Verdicts.{first_fault};
ghost use Rattle.matrix.specs.Lent.{pattern_of};
ghost use Rattle.numbering.specs.Order.{carried_rows, carried_entries};
ghost use Rattle.numbering.specs.Refusals.{row_checks, entry_checks};
ghost use Rattle.preparing.specs.Failing.{Answers};
ghost use Rattle.preparing.specs.Renumbered.{carrying_fault, Carries};

use crate::failing::Failure;
use crate::numbered::Ranking;
use arithmetic::system::System;
use matrix::pattern::Matrix;
use std::alloc::Global;

#[derive(Drop)]
pub struct Figures<C, V> {
    pub coefficients: Vec<C>,
    pub right_hand_side: Vec<V>,
    pub vector: Vec<V>,
}

impl Ranking {
    // Kept: the three that follow differ in the call that carries, and a closure for it would be longer than the call.
    fn rows_there<X: Copy>(&self, heap: Global, rows: u32, list: &[X]) -> Result<Vec<X>, Failure>
        ensures { Answers (first_fault (row_checks rows self.now.ranks.items self.now.rows.items (length list.now) (length list.now))) (λ v. v.items ≡ carried_rows self.now.rows.items list.now) result }
    {
        let mut carried = Vec::from_slice(heap, list)?;
        self.lend().carry_rows(rows, list, carried.as_mut_slice())?;
        Ok(carried)
    }

    pub fn rows_back<X: Copy>(&self, heap: Global, rows: u32, list: &[X]) -> Result<Vec<X>, Failure>
        ensures { Answers (first_fault (row_checks rows self.now.ranks.items self.now.rows.items (length list.now) (length list.now))) (λ v. v.items ≡ carried_rows self.now.ranks.items list.now) result }
    {
        let mut carried = Vec::from_slice(heap, list)?;
        self.lend()
            .carry_rows_back(rows, list, carried.as_mut_slice())?;
        Ok(carried)
    }

    fn entries_there<X: Copy>(
        &self,
        heap: Global,
        matrix: &Matrix<'_>,
        list: &[X],
    ) -> Result<Vec<X>, Failure>
        ensures { Answers (first_fault (entry_checks matrix.now.rows matrix.now.entries matrix.now.starts.now self.now.ranks.items self.now.rows.items (length list.now) (length list.now))) (λ v. v.items ≡ carried_entries (pattern_of matrix.now) self.now.rows.items list.now) result }
    {
        let mut carried = Vec::from_slice(heap, list)?;
        self.lend()
            .carry_entries(matrix, list, carried.as_mut_slice())?;
        Ok(carried)
    }

    // Coefficients, right-hand side and vector in the new numbering.
    pub fn carry_figures<C: Copy, V: Copy>(
        &self,
        heap: Global,
        system: &System<'_, C, V>,
        vector: &[V],
    ) -> Result<Figures<C, V>, Failure>
        ensures { Answers (carrying_fault (pattern_of system.now.matrix) self.now.ranks.items self.now.rows.items (length system.now.coefficients.now) (length system.now.right_hand_side.now) (length vector.now)) (Carries (pattern_of system.now.matrix) self.now.rows.items system.now.coefficients.now system.now.right_hand_side.now vector.now) result }
    {
        let rows = system.matrix.rows;
        let coefficients = self.entries_there(heap, &system.matrix, system.coefficients)?;
        let right_hand_side = self.rows_there(heap, rows, system.right_hand_side)?;
        let vector = self.rows_there(heap, rows, vector)?;
        Ok(Figures {
            coefficients,
            right_hand_side,
            vector,
        })
    }
}
