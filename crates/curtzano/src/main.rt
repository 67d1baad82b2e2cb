// Solves the case on standard input tile by tile, and prints its tiles and every value's bits.
#![tactic(auto)]

use engine_report::reporting::report;
use listing::inputs::read_input;
use std::io;

fn main(rt: HostRuntime) -> io::Result<()> {
    let file = read_input(rt.alloc(), rt.stdin())?;
    let text = report(rt.alloc(), &file)?;
    print!(rt; "{text}")
}
