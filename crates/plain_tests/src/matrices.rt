// Matrices that are accepted and refused.
use crate::is_fault;
use checks::{Fault, Layer};
use matrix::pattern::Matrix;
use matrix::sizes::Size;

fn answer<'a>(starts: &'a [u32], columns: &'a [u32]) -> Result<(), Fault> {
    let matrix = Matrix::new(3, 6, starts, columns);
    matrix.check(Layer::Matrix)
}

fn refused(answer: Result<(), Fault>, number: u8, place: usize) -> bool {
    is_fault(answer.err(), number, place, Layer::Matrix)
}

#[test]
fn a_repeated_column_is_accepted(rt: HostRuntime) {
    assert!(rt; answer(&[0, 3, 4, 6], &[1, 0, 1, 1, 2, 0]).is_ok());
}

#[test]
fn the_own_column_stands_once(rt: HostRuntime) {
    assert!(rt; refused(answer(&[0, 2, 4, 6], &[0, 1, 1, 1, 2, 0]), 5, 1));
    assert!(rt; refused(answer(&[0, 2, 4, 6], &[0, 1, 0, 2, 2, 0]), 5, 1));
    assert!(rt; refused(answer(&[0, 2, 4, 6], &[1, 1, 0, 2, 0, 0]), 5, 0));
}

#[test]
fn row_starts(rt: HostRuntime) {
    assert!(rt; refused(answer(&[1, 2, 4, 6], &[0, 1, 1, 0, 2, 0]), 3, 0));
    assert!(rt; refused(answer(&[0, 4, 2, 6], &[0, 1, 1, 0, 2, 0]), 3, 2));
    assert!(rt; refused(answer(&[0, 2, 4, 5], &[0, 1, 1, 0, 2, 0]), 3, 3));
}

#[test]
fn columns(rt: HostRuntime) {
    assert!(rt; refused(answer(&[0, 2, 4, 6], &[0, 1, 3, 0, 2, 7]), 4, 2));
}

#[test]
fn one_way_links(rt: HostRuntime) {
    let matrix = Matrix::new(3, 4, &[0, 2, 3, 4], &[0, 1, 1, 2]);
    assert!(rt; matrix.linked(0, 1) && matrix.linked(1, 0));
    assert!(rt; !matrix.linked(0, 0) && !matrix.linked(0, 2) && !matrix.linked(2, 1));
}

#[test]
fn sizes_at_their_ends(rt: HostRuntime) {
    assert!(rt; refused(Size::Rows(0).check(Layer::Matrix), 1, 1));
    assert!(rt;
        Size::Rows(1).check(Layer::Matrix).is_ok()
            && Size::Rows(1_048_576).check(Layer::Matrix).is_ok()
    );
    assert!(rt; refused(Size::Rows(1_048_577).check(Layer::Matrix), 1, 1));
    assert!(rt; Size::Entries(16_777_216).check(Layer::Matrix).is_ok());
    assert!(rt; refused(Size::Entries(16_777_217).check(Layer::Matrix), 1, 2));
    assert!(rt; Size::Sweeps(16).check(Layer::Matrix).is_ok());
    assert!(rt; refused(Size::Sweeps(17).check(Layer::Matrix), 1, 3));
    assert!(rt; Size::Tiles(64).check(Layer::Matrix).is_ok());
    assert!(rt; refused(Size::Tiles(65).check(Layer::Matrix), 1, 4));
    assert!(rt; Size::SeedSweep(5, 5).check(Layer::Matrix).is_ok());
    assert!(rt; refused(Size::SeedSweep(6, 5).check(Layer::Matrix), 1, 5));
}
