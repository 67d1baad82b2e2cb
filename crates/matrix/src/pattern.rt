// Where a matrix's entries stand.
ghost use Rattle.std.specs.Prelude.{◌≡◌, ◌<◌, ◌≤◌, length, count_by, nat_eq};
ghost use Rattle.checks.specs.Lists.{at, some};
ghost use Rattle.std.specs.List.{between};
ghost use Rattle.std.specs.Result.{result_err};
ghost use Rattle.matrix.specs.Patterns.{row_part, stores, linked, diagonal, bad_start, starts_fault, columns_fault, rows_fault, matrix_fault};
ghost use Rattle.matrix.specs.Lent.{pattern_of};

use checks::{Check, Fault, Layer};

// R rows and E entries: row v has the entries from row start v up to row start v + 1, each with its column.
#[derive(Clone, Copy)]
pub struct Matrix<'a> {
    pub rows: u32,
    pub entries: u32,
    pub starts: &'a [u32],
    pub columns: &'a [u32],
}

impl<'a> Matrix<'a> {
    pub fn new(rows: u32, entries: u32, starts: &'a [u32], columns: &'a [u32]) -> Matrix<'a>
        ensures { pattern_of result ≡ record { rows = rows; entries = entries; starts = starts.now; columns = columns.now } }
    {
        Matrix {
            rows,
            entries,
            starts,
            columns,
        }
    }
}

// What stands at i, and 0 past the end.
pub fn number_at(table: &[u32], i: usize) -> u32
    ensures { result ≡ at table.now i }
{
    table.get(i).copied().unwrap_or(0)
}

// The elements from `from` up to `to`, as far as there are any.
fn cut<X>(list: &[X], from: usize, to: usize) -> &[X]
    ensures { result.now ≡ between from to list.now }
{
    let end = to.min(list.len());
    list.get(from..end).unwrap_or_default()
}

// How often a row's own column stands in its part.
fn own_entries(row: u32, part: &[u32]) -> usize
    ensures { result ≡ count_by (nat_eq row) part.now }
{
    // A sum of ones, since the library's count of a filter takes half as long again on long rows.
    part.iter().map(|column| usize::from(*column == row)).sum()
}

impl Matrix<'_> {
    // Row v's part of a list that has one element for each entry.
    pub fn row<'x, X>(&self, list: &'x [X], v: u32) -> &'x [X]
        ensures { result.now ≡ row_part (pattern_of self.now) list.now v }
    {
        let from = number_at(self.starts, v as usize);
        let to = number_at(self.starts, v as usize + 1);
        cut(list, from as usize, to as usize)
    }

    pub fn stores(&self, v: u32, w: u32) -> bool
        ensures { result ≡ stores (pattern_of self.now) v w }
    {
        self.row(self.columns, v).contains(&w)
    }

    pub fn linked(&self, v: u32, w: u32) -> bool
        ensures { result ≡ linked (pattern_of self.now) v w }
    {
        v != w && (self.stores(v, w) || self.stores(w, v))
    }

    // Whether entry e lies in the row that its column names.
    pub fn is_diagonal(&self, e: usize) -> bool
        ensures { result ≡ diagonal (pattern_of self.now) e }
    {
        let v = number_at(self.columns, e) as usize;
        number_at(self.starts, v) as usize <= e && e < number_at(self.starts, v + 1) as usize
    }

    fn is_bad_start(&self, i: usize) -> bool
        ensures { result ≡ bad_start (pattern_of self.now) i }
    {
        let start = number_at(self.starts, i);
        let before = number_at(self.starts, i.saturating_sub(1));
        (i == 0 && start != 0)
            || start < before
            || (i == self.rows as usize && start != self.entries)
    }

    pub fn check_row_starts(&self, layer: Layer) -> Result<(), Fault>
        ensures { result_err result ≡ starts_fault layer (pattern_of self.now) }
    {
        for i in 0..self.starts.len() {
            Check::RowStart.refuse_if(self.is_bad_start(i), i, layer)?;
        }
        Ok(())
    }

    pub fn check_columns(&self, layer: Layer) -> Result<(), Fault>
        ensures { result_err result ≡ columns_fault layer (pattern_of self.now) }
    {
        for (e, column) in self.columns.iter().enumerate() {
            Check::Column.refuse_if(*column >= self.rows, e, layer)?;
        }
        Ok(())
    }

    pub fn check_rows(&self, layer: Layer) -> Result<(), Fault>
        ensures { result_err result ≡ rows_fault layer (pattern_of self.now) }
    {
        for row in 0..self.rows {
            let own = own_entries(row, self.row(self.columns, row));
            Check::Row.refuse_if(own != 1, row as usize, layer)?;
        }
        Ok(())
    }

    // Row starts, columns and rows: the first that fails, at its lowest place.
    pub fn check(&self, layer: Layer) -> Result<(), Fault>
        ensures { result_err result ≡ matrix_fault layer (pattern_of self.now) }
    {
        self.check_row_starts(layer)?;
        self.check_columns(layer)?;
        self.check_rows(layer)
    }
}
