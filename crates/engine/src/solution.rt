// What a problem comes to.

// How many points a tile has, and the tiles that it waits for, as bits.
#[derive(Clone, Copy)]
pub struct Tile {
    pub points: usize,
    pub waits: u64,
}

// The rank and the value of each original row, and the tiles.
// Kept: ranks and values come as two tables, and a list of pairs would be one more copy of both.
#[derive(Drop)]
pub struct Solution<V> {
    pub ranks: Vec<u32>,
    pub tiles: Vec<Tile>,
    pub values: Vec<V>,
}
