// What curtzano prints and replay writes of the path of three rows, with texts from the rules.
#![tactic(auto)]

#[cfg(test)]
mod tests {
    use engine_report::reporting::report;
    use listing::inputs::read_input;
    use replay::replaying::replay;
    use std::process::Abort;
    use std::test::Fail;

    // Diagonals 2, others -1, right-hand side 4 0 8, start 0, two sweeps, seed 1 0 0 in sweep 1, two tiles.
    const DOUBLES: &[u8; 168] = b"\
        \0\0\0\xa4\x01\x01\x02\x01\x02\0\0\0\x03\0\0\0\x07\0\0\0\0\0\0\0\x02\0\0\0\x05\0\0\0\x07\0\
        \0\0\0\0\0\0\x01\0\0\0\x01\0\0\0\0\0\0\0\x02\0\0\0\x02\0\0\0\x01\x40\0\0\0\0\0\0\
        \0\xbf\xf0\0\0\0\0\0\0\x40\0\0\0\0\0\0\0\xbf\xf0\0\0\0\0\0\0\xbf\xf0\0\0\0\0\0\0\x40\
        \0\0\0\0\0\0\0\xbf\xf0\0\0\0\0\0\0\x40\x10\0\0\0\0\0\0\0\0\0\0\0\0\0\0\x40\x20\0\
        \0\0\0\0\0\0\0\0\0\0\0\0\0\0\0\0\0\0\0\0\0\0\0\0\0\0\0\0\0\x01\0\0";

    // Link 0-1 takes 7 and link 1-2 takes 5, water comes to row 0 at 10; the rest as above.
    const MINUTES: &[u8; 116] = b"\
        \0\0\0\x70\x01\x02\x02\x01\x02\0\0\0\x03\0\0\0\x07\0\0\0\0\0\0\0\x02\0\0\0\x05\0\0\0\x07\0\
        \0\0\0\0\0\0\x01\0\0\0\x01\0\0\0\0\0\0\0\x02\0\0\0\x02\0\0\0\x01\0\0\0\0\0\0\0\
        \x07\0\0\0\0\0\0\0\x07\0\0\0\x05\0\0\0\0\0\0\0\x05\0\0\0\x0a\xff\xff\xff\xff\xff\xff\xff\xff\xff\
        \xff\xff\xff\xff\xff\xff\xff\xff\xff\xff\xff\x01\0\0";

    fn printed(rt: &(impl Abort + AllocGlobal), file: &[u8], text: &str) -> Result<(), Fail> {
        let got = report(rt.alloc(), file)?;
        assert_eq!(rt; got.as_str(), text);
        Ok(())
    }

    #[test]
    fn reads_an_input_whole(rt: HostRuntime) -> Result<(), Fail> {
        let input = read_input(rt.alloc(), DOUBLES.as_slice())?;
        assert_eq!(rt; input.as_slice(), DOUBLES.as_slice());
        Ok(())
    }

    #[test]
    fn reads_of_a_long_input_what_shows_it(rt: HostRuntime) -> Result<(), Fail> {
        let input = read_input(rt.alloc(), [7; 20_000].as_slice())?;
        assert_eq!(rt; input.len(), 16_385);
        Ok(())
    }

    #[test]
    fn lists_doubles(rt: HostRuntime) -> Result<(), Fail> {
        printed(
            &rt,
            DOUBLES,
            "rows 3 sweeps 2 tiles 2\ntile 0 points 3 waits 0\ntile 1 points 3 waits 1\nrow 0 rank 2 value 4010000000000000\nrow 1 rank 1 value 4010000000000000\nrow 2 rank 0 value 4014000000000000\n",
        )
    }

    #[test]
    fn lists_minutes(rt: HostRuntime) -> Result<(), Fail> {
        printed(
            &rt,
            MINUTES,
            "rows 3 sweeps 2 tiles 2\ntile 0 points 3 waits 0\ntile 1 points 3 waits 1\nrow 0 rank 2 value 0000000a\nrow 1 rank 1 value 00000011\nrow 2 rank 0 value ffffffff\n",
        )
    }

    // The line printed of the doubles with one byte changed.
    fn changed(
        rt: &(impl Abort + AllocGlobal),
        at: usize,
        byte: u8,
        text: &str,
    ) -> Result<(), Fail> {
        let mut file = *DOUBLES;
        if at < file.len() {
            file[at] = byte;
        }
        printed(rt, &file, text)
    }

    #[test]
    fn refuses_with_one_line(rt: HostRuntime) -> Result<(), Fail> {
        printed(&rt, &[], "refused 19 place 0 in file\n")?;
        printed(&rt, &[0; 16_385], "refused 19 place 0 in file\n")?;
        changed(&rt, 5, 3, "refused 20 place 5 in file\n")?;
        changed(&rt, 8, 65, "refused 1 place 4 in file\n")?;
        changed(&rt, 7, 3, "refused 1 place 5 in file\n")?;
        changed(&rt, 44, 2, "refused 5 place 1 in matrix\n")?;
        changed(&rt, 166, 2, "refused 6 place 1 in matrix\n")?;
        changed(&rt, 61, 0, "refused 13 place 5 in run\n")
    }

    #[test]
    fn tells_calls_in_any_order(rt: HostRuntime) -> Result<(), Fail> {
        let got = replay(rt.alloc(), DOUBLES, &[1, 0, 1])?;
        assert_eq!(rt;
            got.as_str(),
            "rows 3 sweeps 2 tiles 2\ncall 1 refused 18 place 0 in run\nvalues 0000000000000000 0000000000000000 0000000000000000\ncall 0 points 3\nvalues 4014000000000000 4000000000000000 0000000000000000\ncall 1 points 3\nvalues 4014000000000000 4010000000000000 4010000000000000\nclosed done 3 points 6 whole\n"
        );
        let cut = replay(rt.alloc(), MINUTES, &[0, 0, 2])?;
        assert_eq!(rt;
            cut.as_str(),
            "rows 3 sweeps 2 tiles 2\ncall 0 points 3\nvalues ffffffff ffffffff ffffffff\ncall 0 refused 17 place 0 in run\nvalues ffffffff ffffffff ffffffff\ncall 2 refused 16 place 2 in run\nvalues ffffffff ffffffff ffffffff\nclosed done 1 points 3 cut short\n"
        );
        Ok(())
    }
}
