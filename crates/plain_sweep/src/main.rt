// Sweeps the case on standard input plainly, rows in the order of the file, and prints every value's bits.
#![tactic(auto)]

use listing::inputs::read_input;
use plain_report::reporting::report;
use std::io;

fn main(rt: HostRuntime) -> io::Result<()> {
    let file = read_input(rt.alloc(), rt.stdin())?;
    let text = report(rt.alloc(), &file)?;
    print!(rt; "{text}")
}
