// Growing one sweep: pairs of rows pull on one another until nothing moves.
ghost use Rattle.std.specs.Prelude.{◌≡◌, ◌<◌, false, length};
ghost use Rattle.matrix.specs.Patterns.{row_part};
ghost use Rattle.matrix.specs.Lent.{pattern_of};
ghost use Rattle.growing.specs.Passes.{Pulls, pulled, row_step, pass, place, Settles};

use crate::direction::Direction;
use crate::sound::SoundMatrix;

// A sweep grown from the tiles of its neighbour, by the marks of the sweeps before.
#[derive(Clone, Copy)]
pub(crate) struct Growth<'a> {
    pub(crate) direction: Direction,
    pub(crate) sound: SoundMatrix<'a>,
    pub(crate) marks: &'a [u8],
    pub(crate) near: &'a [u8],
    ghost marked: { length marks.now ≡ length sound.matrix.columns.now },
    ghost tiled: { length near.now ≡ sound.matrix.rows },
}

// Where the i-th of n steps is taken, first to last or last to first.
// Kept: (0..n) and (0..n).rev() are two types, so each loop would stand twice.
fn place(backward: bool, n: usize, i: usize) -> usize
    requires { i < n }
    ensures is { result ≡ place backward n i }
    ensures below { result < n }
{
    if backward { n - 1 - i } else { i }
}

impl Growth<'_> {
    // The second row's tile becomes the best of itself and the first's in the neighbouring sweep, then the first's the best of itself and
    // the second's. Answers whether one moved.
    fn pull(&self, own: &mut [u8], first: usize, second: usize) -> bool
        requires near { first < length self.now.near.now }
        requires first { first < length own.old }
        requires second { second < length own.old }
        ensures { Pulls self.now.direction (λ g. pulled self.now.direction self.now.near.now g first second) result own.old own.new }
    {
        let (first_tile, second_tile) = (own[first], own[second]);
        let bound = self.direction.best(second_tile, self.near[first]);
        let tile = self.direction.best(first_tile, bound);
        own[second] = bound;
        own[first] = tile;
        bound != second_tile || tile != first_tile
    }

    // A row's entries, once. Answers whether a tile moved.
    // Kept: the length of a sweep that is lent to be written cannot be a fact of the growth, which holds only its neighbour.
    fn pull_row(&self, own: &mut [u8], row: u32, backward: bool) -> bool
        requires own { length own.old ≡ self.now.sound.matrix.rows }
        requires row { row < self.now.sound.matrix.rows }
        ensures { Pulls self.now.direction (row_step self.now.direction backward row (row_part (pattern_of self.now.sound.matrix) self.now.sound.matrix.columns.now row) (row_part (pattern_of self.now.sound.matrix) self.now.marks.now row) self.now.near.now) result own.old own.new }
    {
        let columns = self.sound.matrix.row(self.sound.matrix.columns, row);
        let marks = self.sound.matrix.row(self.marks, row);
        let mut moved = false;
        for i in 0..columns.len() {
            let e = place(backward, columns.len(), i);
            let pair = self
                .direction
                .pair(row as usize, columns[e] as usize, marks[e]);
            if let Some((first, second)) = pair {
                moved |= self.pull(own, first, second);
            }
        }
        moved
    }

    // All entries, once. Answers whether a tile moved.
    fn pass(&self, own: &mut [u8], backward: bool) -> bool
        requires own { length own.old ≡ self.now.sound.matrix.rows }
        ensures { Pulls self.now.direction (pass self.now.direction backward (pattern_of self.now.sound.matrix) self.now.marks.now self.now.near.now) result own.old own.new }
    {
        let rows = self.sound.matrix.rows as usize;
        let mut moved = false;
        for i in 0..rows {
            let row = place(backward, rows, i) as u32;
            moved |= self.pull_row(own, row, backward);
        }
        moved
    }

    // Passes, first to last and last to first in turn, until one moves nothing.
    pub(crate) fn settle(&self, own: &mut [u8])
        requires own { length own.old ≡ self.now.sound.matrix.rows }
        ensures { Settles self.now.direction (pattern_of self.now.sound.matrix) self.now.marks.now self.now.near.now false own.old own.new }
    {
        let mut backward = false;
        while self.pass(own, backward) {
            backward = !backward;
        }
    }
}
