// A refused case prints its fault's line alone.
ghost use Rattle.std.specs.Prelude.{◌≡◌, ◌++◌, length, IfOk, string_bytes};
ghost use Rattle.std.specs.Result.{result_err};
ghost use Rattle.checks.specs.Faults.{line_of};
ghost use Rattle.listing.specs.Refusals.{newline, input_fault};

use checks::{Check, Fault, Layer};
use std::alloc::{AllocError, Global};

// The most bytes that a program takes.
pub const MOST_BYTES: usize = 16_384;

pub fn refusal(heap: Global, fault: Fault) -> Result<String, AllocError>
    ensures { IfOk result (λ text. string_bytes text ≡ line_of fault ++ newline) }
{
    format!(in heap; "{fault}\n")
}

// A longer input counts as a file of the wrong length.
pub fn check_input(file: &[u8]) -> Result<(), Fault>
    ensures { result_err result ≡ input_fault file.now }
{
    Check::FileLength.refuse_if(file.len() > MOST_BYTES, 0, Layer::File)
}
