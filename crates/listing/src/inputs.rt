// How much input a program takes.
ghost use Rattle.std.specs.Prelude.{◌≡◌, take, IfOk, IfSome};

use crate::refusals::MOST_BYTES;
use std::alloc::Global;
use std::io;
use std::io::Read;

// All input, but of one that is too long no more than shows that it is.
pub fn read_input<R: Read + Drop>(heap: Global, reader: R) -> io::Result<Vec<u8>>
    ensures { IfOk result (λ input. IfSome (R.remaining reader) (λ bytes. input.items ≡ take 16_385 bytes)) }
{
    let mut input = Vec::new(heap);
    reader.take(MOST_BYTES as u64 + 1).read_to_end(&mut input)?;
    Ok(input)
}
