// The tables that calls are lent, and their numbers.
ghost use Rattle.std.specs.Prelude.{◌≡◌};
ghost use Rattle.std.specs.Result.{result_err};
ghost use Rattle.matrix.specs.Tables.{table_number, length_fault};

use checks::{Check, Fault, Layer};

// A copy in the new numbering has its original's number plus 20.
#[derive(Clone, Copy, Debug)]
pub enum Table {
    RowStarts = 1,
    Columns = 2,
    Seed = 3,
    TileTable = 4,
    Marks = 5,
    Ranks = 6,
    RowsByRank = 7,
    Spare = 8,
    Schedule = 9,
    ScheduleStarts = 10,
    WaitWords = 11,
    Coefficients = 12,
    RightHandSide = 13,
    Vector = 14,
    NewRowStarts = 21,
    NewColumns = 22,
    NewTileTable = 24,
    NewCoefficients = 32,
    NewRightHandSide = 33,
    NewVector = 34,
}

impl Table {
    pub fn number(self) -> u8
        ensures { result ≡ table_number self }
    {
        self as u8
    }

    pub fn check_length(self, length: usize, wanted: usize, layer: Layer) -> Result<(), Fault>
        ensures { result_err result ≡ length_fault layer self length wanted }
    {
        Check::Length.refuse_if(length != wanted, self.number() as usize, layer)
    }
}
