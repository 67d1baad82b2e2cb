// What a plan holds, with what its checks make known of it. Sweeps are counted from 0 here.
ghost use Rattle.std.specs.Prelude.{◌≡◌, ℕ, ◌+◌, ◌*◌, ◌<◌, ◌≤◌, false, ◌&&◌, [], length, is_some, if◌then◌else◌, None, nat_lt};
ghost use Rattle.checks.specs.declared.Layer.TheVariants.{Plan as PlanLayer};
ghost use Rattle.checks.specs.Lists.{at};
ghost use Rattle.matrix.specs.Patterns.{matrix_fault};
ghost use Rattle.matrix.specs.Lent.{pattern_of};
ghost use Rattle.points.specs.Points.{Lawful as LawfulTiles, Tells, size};
ghost use Rattle.points.specs.Schedules.{begins};
ghost use Rattle.plans.specs.Tilings.{tile_of, precedes, rows_in, waits};
ghost use Rattle.plans.specs.Words.{bit, wait_words_of};
ghost use Rattle.plans.specs.Opening.{opening_fault};
ghost use Rattle.plans.specs.Checked.{Sized};
ghost use Rattle.plans.specs.Held.{tiling_held, tables_held};

use super::Plan;
use matrix::pattern::Matrix;

impl<'a> Plan<'a> {
    pub fn rows(&self) -> u32
        ensures value { result ≡ (tiling_held self.now).pattern.rows }
        ensures limits { (1 ≤ result) × (result ≤ 1048576) }
    {
        self.matrix().rows
    }

    pub fn entries(&self) -> u32
        ensures value { result ≡ (tiling_held self.now).pattern.entries }
        ensures limits { (1 ≤ result) × (result ≤ 16777216) }
    {
        self.matrix().entries
    }

    pub fn sweeps(&self) -> u32
        ensures value { result ≡ (tiling_held self.now).sweeps }
        ensures limits { (1 ≤ result) × (result ≤ 16) }
    {
        self.table.tiling.sweeps
    }

    pub fn tiles(&self) -> u32
        ensures value { result ≡ (tiling_held self.now).count }
        ensures limits { (1 ≤ result) × (result ≤ 64) }
    {
        self.table.tiling.tiles
    }

    pub fn matrix(&self) -> Matrix<'a>
        ensures value { pattern_of result ≡ (tiling_held self.now).pattern }
        ensures lengths { (length result.starts.now ≡ result.rows + 1) × (length result.columns.now ≡ result.entries) }
        ensures limits { Sized result }
        ensures accepted { is_some (matrix_fault PlanLayer (pattern_of result)) ≡ false }
    {
        self.table.tiling.matrix
    }

    // Where a stretch starts in the schedule.
    fn start(&self, stretch: usize) -> usize
        requires { stretch ≤ (tiling_held self.now).count * (tiling_held self.now).sweeps }
        ensures value { result ≡ begins (tiling_held self.now).pattern.rows (tiling_held self.now).sweeps (tile_of (tiling_held self.now)) stretch }
        ensures within { result ≤ length self.now.layout.schedule.now }
    {
        self.layout.starts[stretch] as usize
    }

    // The rows that a tile has in a sweep, rising; none if there is no such tile or sweep.
    pub fn part(&self, tile: u32, sweep: u32) -> &'a [u32]
        ensures value { result.now ≡ (if nat_lt tile (tiling_held self.now).count && nat_lt sweep (tiling_held self.now).sweeps then rows_in (tiling_held self.now) tile sweep else []) }
        ensures below { (i : ℕ) → i < length result.now → at result.now i < (tiling_held self.now).pattern.rows }
    {
        if tile >= self.table.tiling.tiles || sweep >= self.table.tiling.sweeps {
            return &self.layout.schedule[0..0];
        }
        let stretch = tile as usize * self.table.tiling.sweeps as usize + sweep as usize;
        let from = self.start(stretch);
        let to = self.start(stretch + 1);
        &self.layout.schedule[from..to]
    }

    // How many points a tile has; none if there is no such tile.
    pub fn tile_points(&self, tile: u32) -> usize
        ensures { result ≡ size (tiling_held self.now).pattern.rows (tiling_held self.now).sweeps (tile_of (tiling_held self.now)) tile }
    {
        if tile >= self.table.tiling.tiles {
            return 0;
        }
        let first = tile as usize * self.table.tiling.sweeps as usize;
        self.start(first + self.table.tiling.sweeps as usize) - self.start(first)
    }

    // The tiles that a tile waits for, as bits; none if there is no such tile.
    pub fn wait_word(&self, tile: u32) -> u64
        ensures value { result ≡ at (wait_words_of (tiling_held self.now)) tile }
        ensures tells { tile < (tiling_held self.now).count → (t : ℕ) → t < (tiling_held self.now).count → bit result t ≡ waits (tiling_held self.now) tile t }
    {
        if tile >= self.table.tiling.tiles {
            return 0;
        }
        self.layout.words[tile as usize]
    }

    // Every plan that is held has passed all of opening's checks.
    pub fn passed(&self)
        ensures { opening_fault (tables_held self.now) ≡ None }
    {}

    // Its tiles are lawful, and its wait words tell who waits for whom.
    pub fn stands(&self)
        ensures lawful { LawfulTiles (precedes (tiling_held self.now)) (tiling_held self.now).pattern.rows (tiling_held self.now).sweeps (tiling_held self.now).count (tile_of (tiling_held self.now)) }
        ensures tells { Tells (precedes (tiling_held self.now)) (tiling_held self.now).pattern.rows (tiling_held self.now).sweeps (tiling_held self.now).count (tile_of (tiling_held self.now)) (waits (tiling_held self.now)) }
    {}
}
