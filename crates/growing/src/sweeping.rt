// Growing the sweeps of a tile table one after another.
ghost use Rattle.std.specs.Prelude.{◌≡◌, suc, ◌+◌, ◌*◌, ◌<◌, ◌≤◌, length};
ghost use Rattle.matrix.specs.Lent.{pattern_of};
ghost use Rattle.growing.specs.Sweeps.{Grows, GrownDown, GrownUp, Filled};

use crate::Seeding;
use crate::direction::Direction;
use crate::pulling::Growth;
use crate::sound::SoundMatrix;

impl SoundMatrix<'_> {
    // The sweep starts as a copy of its neighbour; the marks are updated once it is final.
    // Kept: with the marks in a struct each method would say, in place of their length, that it still lends the same ones.
    fn grow_sweep(&self, direction: Direction, near: &[u8], own: &mut [u8], marks: &mut [u8])
        requires near { length near.now ≡ self.now.matrix.rows }
        requires own { length own.old ≡ self.now.matrix.rows }
        requires marks { length marks.old ≡ length self.now.matrix.columns.now }
        ensures { Grows direction (pattern_of self.now.matrix) near.now own.new marks.old marks.new }
    {
        own.copy_from_slice(near);
        let growth = Growth {
            direction,
            sound: *self,
            marks,
            near,
        };
        growth.settle(own);
        self.mark_sweep(own, marks);
    }

    // The sweeps below sweep `from`, counted from 0, downwards.
    // Kept: one loop for both ways would take its range, and which of the two sweeps is grown, from the direction.
    fn grow_down(&self, from: usize, tile_table: &mut [u8], marks: &mut [u8])
        requires marks { length marks.old ≡ length self.now.matrix.columns.now }
        requires fits { from * self.now.matrix.rows + self.now.matrix.rows ≤ length tile_table.old }
        ensures { GrownDown (pattern_of self.now.matrix) from 0 tile_table.old tile_table.new marks.old marks.new }
    {
        let rows = self.matrix.rows as usize;
        for sweep in (0..from).rev() {
            let (below, above) = tile_table.split_at_mut(sweep * rows + rows);
            let own = &mut below[sweep * rows..];
            self.grow_sweep(Direction::Down, &above[..rows], own, marks);
        }
    }

    // The sweeps above it, upwards, as far as sweep `last`.
    fn grow_up(&self, from: usize, last: usize, tile_table: &mut [u8], marks: &mut [u8])
        requires marks { length marks.old ≡ length self.now.matrix.columns.now }
        requires order { from ≤ last }
        requires fits { last * self.now.matrix.rows + self.now.matrix.rows ≤ length tile_table.old }
        ensures { GrownUp (pattern_of self.now.matrix) (suc last) from last tile_table.old tile_table.new marks.old marks.new }
    {
        let rows = self.matrix.rows as usize;
        for sweep in from..last {
            let (below, above) = tile_table.split_at_mut(sweep * rows + rows);
            let near = &below[sweep * rows..];
            self.grow_sweep(Direction::Up, near, &mut above[..rows], marks);
        }
    }

    // The seed in its sweep, then the sweeps below it, then those above it.
    pub(crate) fn grow_all(&self, seeding: &Seeding<'_>, tile_table: &mut [u8], marks: &mut [u8])
        requires first { 0 < seeding.now.seed_sweep }
        requires last { seeding.now.seed_sweep ≤ seeding.now.sweeps }
        requires seed { length seeding.now.seed.now ≡ self.now.matrix.rows }
        requires cells { length tile_table.old ≡ seeding.now.sweeps * self.now.matrix.rows }
        requires marks { length marks.old ≡ length self.now.matrix.columns.now }
        ensures { Filled (pattern_of self.now.matrix) seeding.now.sweeps seeding.now.seed_sweep seeding.now.seed.now tile_table.new marks.new }
    {
        let rows = self.matrix.rows as usize;
        let from = seeding.seed_sweep as usize - 1;
        let last = seeding.sweeps as usize - 1;
        let start = from * rows;
        tile_table[start..start + rows].copy_from_slice(seeding.seed);
        marks.fill(0);
        self.mark_sweep(seeding.seed, marks);
        self.grow_down(from, tile_table, marks);
        self.grow_up(from, last, tile_table, marks);
    }
}
