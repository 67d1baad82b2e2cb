// What a caller lends, of any origin: laying out and opening check it.
use matrix::pattern::Matrix;

// A tile table with its matrix and sizes, in the new numbering; it may be lawful or not.
#[derive(Clone, Copy)]
pub struct Tiling<'a> {
    pub matrix: Matrix<'a>,
    pub sweeps: u32,
    pub tiles: u32,
    pub cells: &'a [u8],
}

// What a tile table is laid out as.
#[derive(Clone, Copy)]
pub struct Layout<'a> {
    pub schedule: &'a [u32],
    pub starts: &'a [u32],
    pub words: &'a [u64],
}
