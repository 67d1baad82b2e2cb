// Grows the case on standard input, and prints the tile of every row, sweep by sweep.
#![tactic(auto)]

use listing::inputs::read_input;
use std::io;
use tile_report::reporting::report;

fn main(rt: HostRuntime) -> io::Result<()> {
    let file = read_input(rt.alloc(), rt.stdin())?;
    let text = report(rt.alloc(), &file)?;
    print!(rt; "{text}")
}
