// Case files at the edges of what is read.
use crate::is_fault;
use case_file::reading::Case;
use checks::Layer;
use plain_report::reporting::report;
use std::alloc::{AllocError, Global};
use std::test::Fail;

// One row, one entry, one sweep, one tile; the tables are missing.
const HEADER: [u8; 17] = [0, 0, 0, 13, 1, 1, 1, 1, 1, 0, 0, 0, 1, 0, 0, 0, 1];

fn refused(bytes: &[u8], number: u8, place: usize) -> bool {
    is_fault(Case::read(bytes).err(), number, place, Layer::File)
}

fn with(at: usize, byte: u8) -> [u8; 17] {
    let mut bytes = HEADER;
    if at < 17 {
        bytes[at] = byte;
    }
    bytes
}

#[test]
fn too_short(rt: HostRuntime) {
    assert!(rt; refused(&[], 19, 0));
    assert!(rt; refused(&[0, 0, 0, 12, 1, 1, 1, 1, 1, 0, 0, 0, 1, 0, 0, 0], 19, 0));
    assert!(rt; refused(&HEADER, 19, 17));
    assert!(rt; refused(&with(3, 12), 19, 0));
    assert!(rt; refused(&with(3, 14), 19, 0));
}

#[test]
fn version_and_kind(rt: HostRuntime) {
    assert!(rt; refused(&with(4, 0), 20, 4));
    assert!(rt; refused(&with(4, 2), 20, 4));
    assert!(rt; refused(&with(5, 0), 20, 5));
    assert!(rt; refused(&with(5, 3), 20, 5));
    assert!(rt; refused(&with(5, 2), 19, 17));
}

#[test]
fn sizes(rt: HostRuntime) {
    assert!(rt; refused(&with(12, 0), 1, 1));
    assert!(rt; refused(&with(16, 0), 1, 2));
    assert!(rt; refused(&with(6, 0), 1, 3));
    assert!(rt; refused(&with(6, 16), 19, 17));
    assert!(rt; refused(&with(6, 17), 1, 3));
    assert!(rt; refused(&with(8, 0), 1, 4));
    assert!(rt; refused(&with(8, 64), 19, 17));
    assert!(rt; refused(&with(8, 65), 1, 4));
    assert!(rt; refused(&with(7, 0), 1, 5));
    assert!(rt; refused(&with(7, 2), 1, 5));
}

#[test]
fn large_sizes(rt: HostRuntime) {
    assert!(rt;
        refused(
            &[0, 0, 0, 13, 1, 1, 1, 1, 1, 0, 16, 0, 0, 0, 0, 0, 1],
            19,
            17,
        )
    );
    assert!(rt; refused(&[0, 0, 0, 13, 1, 1, 1, 1, 1, 0, 16, 0, 1, 0, 0, 0, 1], 1, 1));
    assert!(rt;
        refused(
            &[0, 0, 0, 13, 1, 1, 1, 1, 1, 0, 0, 0, 1, 1, 0, 0, 0],
            19,
            17,
        )
    );
    assert!(rt; refused(&[0, 0, 0, 13, 1, 1, 1, 1, 1, 0, 0, 0, 1, 1, 0, 0, 1], 1, 2));
}

// Minutes, 7 rows and 2,034 entries, all tables zero: row start 7 is not 2,034.
fn zeros(heap: Global, size: usize) -> Result<Vec<u8>, AllocError> {
    let header: [u8; 17] = [0, 0, 63, 252, 1, 2, 1, 1, 1, 0, 0, 0, 7, 0, 0, 7, 242];
    let mut bytes = Vec::new(heap);
    bytes.extend_from_slice(&header)?;
    bytes.resize(size, 0)?;
    Ok(bytes)
}

#[test]
fn as_long_as_may_be(rt: HostRuntime) -> Result<(), Fail> {
    let bytes = zeros(rt.alloc(), 16_384)?;
    let text = report(rt.alloc(), bytes.as_slice())?;
    assert!(rt; text.as_str() == "refused 3 place 7 in matrix\n");
    let bytes = zeros(rt.alloc(), 16_385)?;
    let text = report(rt.alloc(), bytes.as_slice())?;
    assert!(rt; text.as_str() == "refused 19 place 0 in file\n");
    Ok(())
}
