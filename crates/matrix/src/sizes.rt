// The sizes, their limits and their places.
ghost use Rattle.std.specs.Prelude.{◌≡◌};
ghost use Rattle.std.specs.Result.{result_err};
ghost use Rattle.matrix.specs.Sizes.{place_of, value_of, limit_of, size_fault};

use checks::{Check, Fault, Layer};

pub const MOST_ROWS: u32 = 1_048_576;

pub const MOST_ENTRIES: u32 = 16_777_216;

pub const MOST_SWEEPS: u32 = 16;

pub const MOST_TILES: u32 = 64;

// A size with its value; the seed sweep comes with the number of sweeps, which it may not pass.
#[derive(Clone, Copy)]
pub enum Size {
    Rows(u32),
    Entries(u32),
    Sweeps(u32),
    Tiles(u32),
    SeedSweep(u32, u32),
}

impl Size {
    pub fn place(self) -> usize
        ensures { result ≡ place_of self }
    {
        match self {
            Size::Rows(_) => 1,
            Size::Entries(_) => 2,
            Size::Sweeps(_) => 3,
            Size::Tiles(_) => 4,
            Size::SeedSweep(_, _) => 5,
        }
    }

    pub fn value(self) -> u32
        ensures { result ≡ value_of self }
    {
        match self {
            Size::Rows(rows) => rows,
            Size::Entries(entries) => entries,
            Size::Sweeps(sweeps) => sweeps,
            Size::Tiles(tiles) => tiles,
            Size::SeedSweep(seed_sweep, _) => seed_sweep,
        }
    }

    pub fn limit(self) -> u32
        ensures { result ≡ limit_of self }
    {
        match self {
            Size::Rows(_) => MOST_ROWS,
            Size::Entries(_) => MOST_ENTRIES,
            Size::Sweeps(_) => MOST_SWEEPS,
            Size::Tiles(_) => MOST_TILES,
            Size::SeedSweep(_, sweeps) => sweeps,
        }
    }

    pub fn check(self, layer: Layer) -> Result<(), Fault>
        ensures { result_err result ≡ size_fault layer self }
    {
        let value = self.value();
        let bad = value < 1 || self.limit() < value;
        Check::Size.refuse_if(bad, self.place(), layer)
    }
}
