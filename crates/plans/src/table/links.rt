// Who waits for whom, and the first point that a higher tile precedes: one walk over the entries, in every sweep.
ghost use Rattle.std.specs.Prelude.{◌≡◌, ◌+◌, ◌*◌, ◌<◌, length, fold};
ghost use Rattle.std.specs.Option.{option_map};
ghost use Rattle.checks.specs.declared.Check.TheVariants.{Lawful as LawfulCheck};
ghost use Rattle.checks.specs.declared.Layer.TheVariants.{Plan as PlanLayer};
ghost use Rattle.checks.specs.Verdicts.{fault_at};
ghost use Rattle.plans.specs.Words.{wait_words_of};
ghost use Rattle.plans.specs.Pairs.{sweep_pairs, link_pairs, row_pairs, noted, lowered};
ghost use Rattle.plans.specs.Opening.{lawful_fault};
ghost use Rattle.plans.specs.Lent.{tiling_of};

use super::TileTable;

// What the pairs so far show: who waits for whom, and the lowest point that a higher tile precedes, or the number of points.
// Kept: the length of the words is a fact of words and table, and the notes hold no table.
// Kept: the lowest of many begins at the number of points; as an option each pair would be matched on.
#[derive(Drop)]
struct Notes<'w> {
    words: &'w mut [u64],
    lowest: usize,
}

impl TileTable<'_> {
    // Where a point stands in the tile table.
    fn point(&self, sweep: usize, row: usize) -> usize
        requires sweep { sweep < self.now.tiling.sweeps }
        requires row { row < self.now.tiling.matrix.rows }
        ensures value { result ≡ sweep * self.now.tiling.matrix.rows + row }
        ensures within { result < length self.now.tiling.cells.now }
    {
        sweep * self.tiling.matrix.rows as usize + row
    }

    // Notes a point that directly precedes another.
    fn note_pair(&self, notes: &mut Notes, before: usize, after: usize)
        requires words { length notes.old.words.now ≡ self.now.tiling.tiles }
        requires before { before < length self.now.tiling.cells.now }
        requires after { after < length self.now.tiling.cells.now }
        ensures same_words { notes.new.words.ghost_name ≡ notes.old.words.ghost_name }
        ensures words { notes.new.words.now ≡ noted self.now.tiling.cells.now notes.old.words.now (before, after) }
        ensures lowest { notes.new.lowest ≡ lowered self.now.tiling.cells.now notes.old.lowest (before, after) }
    {
        let early = self.tiling.cells[before];
        let late = self.tiling.cells[after];
        if early != late {
            notes.words[late as usize] |= 1 << early;
        }
        if late < early {
            notes.lowest = notes.lowest.min(after);
        }
    }

    // An entry of row v with column w, in one sweep.
    // Kept: rows come as numbers out of the entries, and a type for a row below R would be made at each.
    fn note_sweep(&self, notes: &mut Notes, v: usize, w: usize, sweep: usize)
        requires words { length notes.old.words.now ≡ self.now.tiling.tiles }
        requires v { v < self.now.tiling.matrix.rows }
        requires w { w < self.now.tiling.matrix.rows }
        requires sweep { sweep < self.now.tiling.sweeps }
        ensures same_words { notes.new.words.ghost_name ≡ notes.old.words.ghost_name }
        ensures words { notes.new.words.now ≡ fold (noted self.now.tiling.cells.now) notes.old.words.now (sweep_pairs self.now.tiling.matrix.rows self.now.tiling.sweeps v w sweep) }
        ensures lowest { notes.new.lowest ≡ fold (lowered self.now.tiling.cells.now) notes.old.lowest (sweep_pairs self.now.tiling.matrix.rows self.now.tiling.sweeps v w sweep) }
    {
        let next = sweep + 1;
        if next < self.tiling.sweeps as usize {
            self.note_pair(notes, self.point(sweep, v), self.point(next, w));
            self.note_pair(notes, self.point(sweep, w), self.point(next, v));
        }
        if v != w {
            let (low, high) = (v.min(w), v.max(w));
            self.note_pair(notes, self.point(sweep, low), self.point(sweep, high));
        }
    }

    // An entry of row v with column w, in all sweeps.
    fn note_link(&self, notes: &mut Notes, v: usize, w: usize)
        requires words { length notes.old.words.now ≡ self.now.tiling.tiles }
        requires v { v < self.now.tiling.matrix.rows }
        requires w { w < self.now.tiling.matrix.rows }
        ensures same_words { notes.new.words.ghost_name ≡ notes.old.words.ghost_name }
        ensures words { notes.new.words.now ≡ fold (noted self.now.tiling.cells.now) notes.old.words.now (link_pairs self.now.tiling.matrix.rows self.now.tiling.sweeps v w) }
        ensures lowest { notes.new.lowest ≡ fold (lowered self.now.tiling.cells.now) notes.old.lowest (link_pairs self.now.tiling.matrix.rows self.now.tiling.sweeps v w) }
    {
        for sweep in 0..self.tiling.sweeps as usize {
            self.note_sweep(notes, v, w, sweep);
        }
    }

    // The entries of row v.
    fn note_row(&self, notes: &mut Notes, v: u32)
        requires words { length notes.old.words.now ≡ self.now.tiling.tiles }
        requires v { v < self.now.tiling.matrix.rows }
        ensures same_words { notes.new.words.ghost_name ≡ notes.old.words.ghost_name }
        ensures words { notes.new.words.now ≡ fold (noted self.now.tiling.cells.now) notes.old.words.now (row_pairs (tiling_of self.now) v) }
        ensures lowest { notes.new.lowest ≡ fold (lowered self.now.tiling.cells.now) notes.old.lowest (row_pairs (tiling_of self.now) v) }
    {
        for column in self.tiling.matrix.row(self.tiling.matrix.columns, v) {
            self.note_link(notes, v as usize, *column as usize);
        }
    }

    // Writes the wait words; answers the first point that a higher tile precedes.
    pub(crate) fn note_waits(&self, words: &mut [u64]) -> Option<usize>
        requires { length words.old ≡ self.now.tiling.tiles }
        ensures words { words.new ≡ wait_words_of (tiling_of self.now) }
        ensures lowest { option_map (fault_at PlanLayer LawfulCheck) result ≡ lawful_fault (tiling_of self.now) }
    {
        words.fill(0);
        let points = self.tiling.cells.len();
        let mut notes = Notes {
            words,
            lowest: points,
        };
        for v in 0..self.tiling.matrix.rows {
            self.note_row(&mut notes, v);
        }
        (notes.lowest < points).then_some(notes.lowest)
    }
}
