// The marks of the entries: which of its row and its column comes before the other.
ghost use Rattle.std.specs.Prelude.{◌≡◌, ◌<◌, length};
ghost use Rattle.std.specs.List.{AllByRecursion};
ghost use Rattle.matrix.specs.Lent.{pattern_of};
ghost use Rattle.growing.specs.Marks.{remark, remarked, remarked_all};

use crate::sound::SoundMatrix;
use matrix::pattern::Matrix;

// 1 where the row's tile is the lower, 2 where the column's is, and as it was where they are equal.
fn remark(row_tile: u8, column_tile: u8, mark: u8) -> u8
    ensures { result ≡ remark row_tile column_tile mark }
{
    if row_tile < column_tile {
        1
    } else if column_tile < row_tile {
        2
    } else {
        mark
    }
}

fn mark_row(tiles: &[u8], row: usize, columns: &[u32], marks: &mut [u8])
    requires row { row < length tiles.now }
    requires columns { AllByRecursion (λ w. w < length tiles.now) columns.now }
    requires marks { length marks.old ≡ length columns.now }
    ensures { marks.new ≡ remarked tiles.now row columns.now marks.old }
{
    // Kept: tried as a `zip` of the columns with `marks.iter_mut()`; what is written is then unknown to the proof.
    for (e, mark) in marks.iter_mut().enumerate() {
        *mark = remark(tiles[row], tiles[columns[e] as usize], *mark);
    }
}

impl SoundMatrix<'_> {
    // Every entry, by the tiles of a sweep that is final.
    pub(crate) fn mark_sweep(&self, tiles: &[u8], marks: &mut [u8])
        requires tiles { length tiles.now ≡ self.now.matrix.rows }
        requires marks { length marks.old ≡ length self.now.matrix.columns.now }
        ensures { marks.new ≡ remarked_all (pattern_of self.now.matrix) tiles.now marks.old }
    {
        let Matrix {
            rows,
            starts,
            columns,
            ..
        } = self.matrix;
        // Kept: the row's number is needed too, and a pair of `windows(2)` would be taken apart by index again.
        for row in 0..rows as usize {
            let (from, to) = (starts[row] as usize, starts[row + 1] as usize);
            mark_row(tiles, row, &columns[from..to], &mut marks[from..to]);
        }
    }
}
