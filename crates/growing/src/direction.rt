// Which way a sweep is grown from its neighbour.
ghost use Rattle.std.specs.Prelude.{◌≡◌};
ghost use Rattle.growing.specs.Directions.{best_of, entry_pair};

#[derive(Clone, Copy)]
pub(crate) enum Direction {
    Down,
    Up,
}

impl Direction {
    // The tile that wins: the lower going down, the higher going up.
    pub(crate) fn best(self, a: u8, b: u8) -> u8
        ensures { result ≡ best_of self a b }
    {
        match self {
            Direction::Down => a.min(b),
            Direction::Up => a.max(b),
        }
    }

    // The pair of rows that an entry's mark names, its first row first: going down the one that comes before, going up the other.
    pub(crate) fn pair(self, row: usize, column: usize, mark: u8) -> Option<(usize, usize)>
        ensures { result ≡ entry_pair self row column mark }
    {
        // Kept: marks are bytes that callers are lent, and 1 and 2 are what the rules call them.
        match (self, mark) {
            (Direction::Down, 1) | (Direction::Up, 2) => Some((row, column)),
            (Direction::Down, 2) | (Direction::Up, 1) => Some((column, row)),
            _ => None,
        }
    }
}
