// A case as it stands in a file: what the header says, and each table as a part of the borrowed bytes.
#![tactic(auto)]

pub mod filed;
pub mod kinds;
pub mod parts;
pub mod reading;

#[cfg(test)]
mod tests {
    use crate::filed::Filed;
    use crate::kinds::Kind;
    use crate::parts::Part;
    use crate::reading::Case;
    use checks::{Check, Fault, Layer};
    use std::test::Fail;

    // Three rows in a path, doubles: 164 bytes after the length.
    const PATH: &[u8; 168] = b"\
        \0\0\0\xa4\x01\x01\x02\x01\x02\0\0\0\x03\0\0\0\x07\
        \0\0\0\0\0\0\0\x02\0\0\0\x05\0\0\0\x07\
        \0\0\0\0\0\0\0\x01\0\0\0\x01\0\0\0\0\0\0\0\x02\0\0\0\x02\0\0\0\x01\
        \x40\0\0\0\0\0\0\0\xbf\xf0\0\0\0\0\0\0\x40\0\0\0\0\0\0\0\xbf\xf0\0\0\0\0\0\0\
        \xbf\xf0\0\0\0\0\0\0\x40\0\0\0\0\0\0\0\xbf\xf0\0\0\0\0\0\0\
        \x40\x10\0\0\0\0\0\0\0\0\0\0\0\0\0\0\x40\x20\0\0\0\0\0\0\
        \0\0\0\0\0\0\0\0\0\0\0\0\0\0\0\0\0\0\0\0\0\0\0\0\
        \x01\0\0";

    #[test]
    fn reads_a_case(rt: HostRuntime) -> Result<(), Fail> {
        let case = Case::read(PATH)?;
        assert_eq!(rt; case.kind, Kind::Doubles);
        assert_eq!(rt; (case.sweeps, case.seed_sweep, case.tiles), (2, 1, 2));
        assert_eq!(rt; (case.rows, case.entries), (3, 7));
        assert_eq!(rt;
            case.starts.elements::<u32>(rt.alloc())?,
            vec![in rt.alloc(); 0u32, 2, 5, 7]?
        );
        assert_eq!(rt;
            case.right_hand_side.elements::<f64>(rt.alloc())?,
            vec![in rt.alloc(); 4.0f64, 0.0, 8.0]?
        );
        assert_eq!(rt;
            (case.seed.offset, case.seed.element::<u8>(0)),
            (165, Some(1u8))
        );
        assert_eq!(rt; case.seed.element::<u8>(3), None);
        Ok(())
    }

    // The fault of that file with one byte changed.
    fn changed(at: usize, byte: u8) -> Option<Fault> {
        let mut file = *PATH;
        if at < file.len() {
            file[at] = byte;
        }
        Case::read(&file).err()
    }

    fn refused(check: Check, place: usize) -> Option<Fault> {
        Some(Fault {
            check,
            place,
            layer: Layer::File,
        })
    }

    #[test]
    fn refuses_a_file(rt: HostRuntime) {
        assert_eq!(rt; Case::read(&[0; 16]).err(), refused(Check::FileLength, 0));
        assert_eq!(rt; changed(3, 168), refused(Check::FileLength, 0));
        assert_eq!(rt; changed(4, 2), refused(Check::FileFormat, 4));
        assert_eq!(rt; changed(5, 3), refused(Check::FileFormat, 5));
        assert_eq!(rt; changed(7, 3), refused(Check::Size, 5));
        assert_eq!(rt; changed(12, 4), refused(Check::FileLength, 17));
        assert_eq!(rt; changed(164, 9), None);
    }

    #[test]
    fn reads_any_not_a_number_alike(rt: HostRuntime) -> Result<(), Fail> {
        let part = Part {
            offset: 0,
            bytes: b"\xff\xf0\0\0\0\0\0\x01\x7f\xff\xff\xff\xff\xff\xff\xff",
        };
        let first = part.element::<f64>(0).ok_or("no first")?;
        let second = part.element::<f64>(1).ok_or("no second")?;
        assert_eq!(rt;
            (first.bits(), second.bits()),
            (0x7ff8_0000_0000_0000, 0x7ff8_0000_0000_0000)
        );
        Ok(())
    }
}
