// Carrying lists of row and entry elements into the new numbering and back, for every element type.
ghost use Rattle.std.specs.Prelude.{◌≡◌, ℕ, ◌+◌, ◌-◌, ◌<◌, ◌≤◌, length, take, drop};
ghost use Rattle.std.proofs.Math.Seq.{paste};
ghost use Rattle.std.specs.Result.{result_err};
ghost use Rattle.checks.specs.Lists.{at};
ghost use Rattle.checks.specs.Verdicts.{first_fault, unless_refused};
ghost use Rattle.matrix.specs.Lent.{pattern_of};
ghost use Rattle.numbering.specs.Order.{carried_rows, carried_entries, starts_pattern, entries_back};
ghost use Rattle.numbering.specs.Refusals.{row_checks, entry_checks};

use crate::Numbering;
use crate::checking::{check_entries, check_rows};
use crate::rows::RowNumbers;
use checks::Fault;
use matrix::pattern::Matrix;

// Row elements in the order that `rows` lists them.
pub(crate) fn gather_rows<K: Copy>(rows: &RowNumbers, from: &[K], to: &mut [K])
    requires there { length from.now ≡ rows.now.rows }
    requires room { length to.old ≡ rows.now.rows }
    ensures { to.new ≡ carried_rows rows.now.list.now from.now }
{
    // Kept: tried as a `zip` with `iter_mut`; what is written is then unknown to the proof.
    for (i, row) in rows.list.iter().enumerate() {
        to[i] = from[*row as usize];
    }
}

// Writes a part into a list from a place on.
fn put_part<K: Copy>(to: &mut [K], place: usize, part: &[K])
    requires { place + length part.now ≤ length to.old }
    ensures { to.new ≡ paste to.old place part.now (length part.now) }
{
    to[place..place + part.len()].copy_from_slice(part);
}

// Entry elements row by row, in the order that `rows` lists the rows.
pub(crate) fn gather_entries<K: Copy>(matrix: &Matrix, rows: &[u32], from: &[K], to: &mut [K])
    requires { length (carried_entries (pattern_of matrix.now) rows.now from.now) ≡ length to.old }
    ensures { to.new ≡ carried_entries (pattern_of matrix.now) rows.now from.now }
{
    // Kept: tried with a rest that is split again in each turn; what is written to it is then unknown to the proof.
    let mut place = 0;
    for row in rows {
        let part = matrix.row(from, *row);
        put_part(to, place, part);
        place += part.len();
    }
}

// Writes a row's part of a list from the first elements of another, and answers the rest of those.
fn put_row<'x, K: Copy>(starts: &[u32], row: u32, from: &'x [K], to: &mut [K]) -> &'x [K]
    requires within { row + 1 < length starts.now }
    requires rises { at starts.now row ≤ at starts.now (row + 1) }
    requires ends { at starts.now (row + 1) ≤ length to.old }
    requires there { at starts.now (row + 1) - at starts.now row ≤ length from.now }
    ensures rest { result.now ≡ drop (at starts.now (row + 1) - at starts.now row) from.now }
    ensures put { to.new ≡ paste to.old (at starts.now row) (take (at starts.now (row + 1) - at starts.now row) from.now) (at starts.now (row + 1) - at starts.now row) }
{
    let start = starts[row as usize];
    let end = starts[row as usize + 1];
    let (part, rest) = from.split_at((end - start) as usize);
    put_part(to, start as usize, part);
    rest
}

impl Numbering<'_> {
    // A list of row elements in the new numbering.
    pub fn carry_rows<K: Copy>(&self, rows: u32, from: &[K], to: &mut [K]) -> Result<(), Fault>
        ensures verdict { result_err result ≡ first_fault (row_checks rows self.now.ranks.now self.now.rows_by_rank.now (length from.now) (length to.old)) }
        ensures carried { to.new ≡ unless_refused (result_err result) (carried_rows self.now.rows_by_rank.now from.now) to.old }
    {
        check_rows(rows, self, from.len(), to.len())?;
        let rows_by_rank = RowNumbers {
            rows,
            list: self.rows_by_rank,
        };
        gather_rows(&rows_by_rank, from, to);
        Ok(())
    }

    // A list of row elements of the new numbering, carried back.
    pub fn carry_rows_back<K: Copy>(&self, rows: u32, from: &[K], to: &mut [K]) -> Result<(), Fault>
        ensures verdict { result_err result ≡ first_fault (row_checks rows self.now.ranks.now self.now.rows_by_rank.now (length to.old) (length from.now)) }
        ensures carried { to.new ≡ unless_refused (result_err result) (carried_rows self.now.ranks.now from.now) to.old }
    {
        check_rows(rows, self, to.len(), from.len())?;
        let ranks = RowNumbers {
            rows,
            list: self.ranks,
        };
        gather_rows(&ranks, from, to);
        Ok(())
    }

    // A list of entry elements in the new numbering; the matrix's columns are not looked at.
    pub fn carry_entries<K: Copy>(
        &self,
        matrix: &Matrix<'_>,
        from: &[K],
        to: &mut [K],
    ) -> Result<(), Fault>
        ensures verdict { result_err result ≡ first_fault (entry_checks matrix.now.rows matrix.now.entries matrix.now.starts.now self.now.ranks.now self.now.rows_by_rank.now (length from.now) (length to.old)) }
        ensures carried { to.new ≡ unless_refused (result_err result) (carried_entries (starts_pattern matrix.now.rows matrix.now.entries matrix.now.starts.now) self.now.rows_by_rank.now from.now) to.old }
    {
        check_entries(matrix, self, from.len(), to.len())?;
        gather_entries(matrix, self.rows_by_rank, from, to);
        Ok(())
    }

    // A list of entry elements of the new numbering, carried back; the matrix's columns are not looked at.
    pub fn carry_entries_back<K: Copy>(
        &self,
        matrix: &Matrix<'_>,
        from: &[K],
        to: &mut [K],
    ) -> Result<(), Fault>
        ensures verdict { result_err result ≡ first_fault (entry_checks matrix.now.rows matrix.now.entries matrix.now.starts.now self.now.ranks.now self.now.rows_by_rank.now (length to.old) (length from.now)) }
        ensures carried { to.new ≡ unless_refused (result_err result) (entries_back (starts_pattern matrix.now.rows matrix.now.entries matrix.now.starts.now) self.now.ranks.now self.now.rows_by_rank.now from.now) to.old }
    {
        check_entries(matrix, self, to.len(), from.len())?;
        let mut rest = from;
        for row in self.rows_by_rank {
            rest = put_row(matrix.starts, *row, rest, to);
        }
        Ok(())
    }
}
