// The path of three rows in the new numbering, its two tiles laid out.
use checks::Fault;
use matrix::pattern::Matrix;
use plans::lent::{Layout, Tiling};
use plans::plan::Plan;

pub static STARTS: [u32; 4] = [0, 2, 5, 7];

pub static COLUMNS: [u32; 7] = [0, 1, 1, 2, 0, 2, 1];

pub static TILES: [u8; 6] = [0, 0, 1, 0, 1, 1];

pub static SCHEDULE: [u32; 6] = [0, 1, 0, 2, 1, 2];

pub static SCHEDULE_STARTS: [u32; 5] = [0, 2, 3, 4, 6];

pub static WAIT_WORDS: [u64; 2] = [0, 1];

pub fn path<'a>() -> Matrix<'a> {
    Matrix::new(3, 7, &STARTS, &COLUMNS)
}

pub fn tiling<'a>(matrix: Matrix<'a>, sweeps: u32, tiles: u32, cells: &'a [u8]) -> Tiling<'a> {
    Tiling {
        matrix,
        sweeps,
        tiles,
        cells,
    }
}

pub fn layout<'a>(schedule: &'a [u32], starts: &'a [u32], words: &'a [u64]) -> Layout<'a> {
    Layout {
        schedule,
        starts,
        words,
    }
}

pub fn path_tiling<'a>() -> Tiling<'a> {
    tiling(path(), 2, 2, &TILES)
}

pub fn path_layout<'a>() -> Layout<'a> {
    layout(&SCHEDULE, &SCHEDULE_STARTS, &WAIT_WORDS)
}

pub fn open_path<'a>(plan: &mut Plan<'a>) -> Result<(), Fault> {
    plan.open(path_tiling(), path_layout())
}
