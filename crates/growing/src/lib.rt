// Growing: the tile of every point, from the seed, and the marks of the entries.
#![tactic(auto)]

ghost use Rattle.std.specs.Prelude.{◌≡◌, length};
ghost use Rattle.std.specs.Result.{result_err};
ghost use Rattle.checks.specs.Verdicts.{unless_refused};
ghost use Rattle.matrix.specs.Lent.{pattern_of};
ghost use Rattle.growing.specs.Verdicts.{growing_fault};
ghost use Rattle.growing.specs.Growing.{tile_table_of, marks as marks_grown};
ghost use Rattle.growing.specs.Greatest.{SweepsAreGrown, GrownIsOne, OfAllGrown, OneWay, NeverFalls, NeverCross, NeverAhead, TilesStay};
ghost use Rattle.growing.specs.Known.{KnownMeshes};

mod checking;
mod direction;
mod marking;
mod pulling;
mod sound;
mod sweeping;

use checks::Fault;
use matrix::pattern::Matrix;
use sound::SoundMatrix;

// What a tile table is grown from: the tile of each row in sweep `seed_sweep` of `sweeps`, all of them below `tiles`.
#[derive(Clone, Copy)]
pub struct Seeding<'a> {
    pub sweeps: u32,
    pub tiles: u32,
    pub seed_sweep: u32,
    pub seed: &'a [u8],
}

// The tile table and the marks of a matrix.
pub fn grow(
    matrix: &Matrix<'_>,
    seeding: &Seeding<'_>,
    tile_table: &mut [u8],
    marks: &mut [u8],
) -> Result<(), Fault>
    ensures fault { result_err result ≡ growing_fault (pattern_of matrix.now) seeding.now.sweeps seeding.now.tiles seeding.now.seed_sweep seeding.now.seed.now (length tile_table.old) (length marks.old) }
    ensures tiled { tile_table.new ≡ unless_refused (growing_fault (pattern_of matrix.now) seeding.now.sweeps seeding.now.tiles seeding.now.seed_sweep seeding.now.seed.now (length tile_table.old) (length marks.old)) (tile_table_of (pattern_of matrix.now) seeding.now.sweeps seeding.now.seed_sweep seeding.now.tiles seeding.now.seed.now) tile_table.old }
    ensures marked { marks.new ≡ unless_refused (growing_fault (pattern_of matrix.now) seeding.now.sweeps seeding.now.tiles seeding.now.seed_sweep seeding.now.seed.now (length tile_table.old) (length marks.old)) (marks_grown (pattern_of matrix.now) seeding.now.sweeps seeding.now.seed_sweep seeding.now.tiles seeding.now.seed.now) marks.old }
{
    checking::check(matrix, seeding, tile_table.len(), marks.len())?;
    let sound = SoundMatrix { matrix: *matrix };
    sound.grow_all(seeding, tile_table, marks);
    Ok(())
}

// Every downward sweep is the greatest, and every upward one the least, that keeps the order of the rows; and there is one such table.
pub fn growing_stands()
    ensures grown { SweepsAreGrown }
    ensures alone { GrownIsOne }
{}

// No two rows come before each other, no row's tile falls from sweep to sweep, linked rows never cross, none is ahead of a linked
// row's next sweep, and all tiles stay below the seed's limit.
pub fn order_stands()
    ensures one_way { OfAllGrown OneWay }
    ensures never_falls { OfAllGrown NeverFalls }
    ensures never_cross { OfAllGrown NeverCross }
    ensures never_ahead { OfAllGrown NeverAhead }
    ensures tiles_stay { TilesStay }
{}

// The known meshes come out of the definitions as they should.
pub fn known_meshes()
    ensures { KnownMeshes }
{}

#[cfg(test)]
mod tests {
    use super::*;
    use checks::{Check, Layer};
    use std::process::Abort;
    use std::test::Fail;

    const PATH3: Matrix<'static> = Matrix {
        rows: 3,
        entries: 7,
        starts: &[0, 2, 5, 7],
        columns: &[0, 1, 1, 0, 2, 2, 1],
    };

    const SEEDING3: Seeding<'static> = Seeding {
        sweeps: 2,
        tiles: 2,
        seed_sweep: 1,
        seed: &[1, 0, 0],
    };

    #[test]
    fn path_of_three(rt: HostRuntime) -> Result<(), Fail> {
        let mut tile_table = [9; 6];
        let mut marks = [9; 7];
        grow(&PATH3, &SEEDING3, &mut tile_table, &mut marks)?;
        assert_eq!(rt; tile_table, [1, 0, 0, 1, 1, 0]);
        assert_eq!(rt; marks, [0, 2, 0, 1, 2, 0, 1]);
        let seeding = Seeding {
            tiles: 64,
            seed_sweep: 2,
            ..SEEDING3
        };
        grow(&PATH3, &seeding, &mut tile_table, &mut marks)?;
        assert_eq!(rt; tile_table, [0, 0, 0, 1, 0, 0]);
        assert_eq!(rt; marks, [0, 2, 0, 1, 0, 0, 0]);
        Ok(())
    }

    #[test]
    fn path_of_four(rt: HostRuntime) -> Result<(), Fail> {
        let matrix = Matrix {
            rows: 4,
            entries: 10,
            starts: &[0, 2, 5, 8, 10],
            columns: &[0, 1, 1, 0, 2, 2, 1, 3, 3, 2],
        };
        let mut tile_table = [9; 8];
        let mut marks = [9; 10];
        let seeding = Seeding {
            sweeps: 2,
            tiles: 4,
            seed_sweep: 2,
            seed: &[1, 2, 3, 0],
        };
        grow(&matrix, &seeding, &mut tile_table, &mut marks)?;
        assert_eq!(rt; tile_table, [0, 0, 0, 0, 1, 2, 3, 0]);
        let seeding = Seeding {
            seed_sweep: 1,
            ..seeding
        };
        grow(&matrix, &seeding, &mut tile_table, &mut marks)?;
        assert_eq!(rt; tile_table, [1, 2, 3, 0, 2, 3, 3, 3]);
        Ok(())
    }

    fn refused(rt: &impl Abort, tiles: u32, seed_sweep: u32, check: Check, place: usize) {
        let mut tile_table = [9; 6];
        let mut marks = [9; 7];
        let seeding = Seeding {
            tiles,
            seed_sweep,
            ..SEEDING3
        };
        let answer = grow(&PATH3, &seeding, &mut tile_table, &mut marks);
        let layer = Layer::Matrix;
        assert_eq!(rt;
            answer,
            Err(Fault {
                check,
                place,
                layer,
            })
        );
        assert_eq!(rt; tile_table, [9; 6]);
        assert_eq!(rt; marks, [9; 7]);
    }

    #[test]
    fn refused_unchanged(rt: HostRuntime) {
        refused(&rt, 65, 1, Check::Size, 4);
        refused(&rt, 2, 3, Check::Size, 5);
        refused(&rt, 1, 1, Check::Seed, 0);
    }
}
