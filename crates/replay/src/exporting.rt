// Replay into a caller's buffer.
ghost use Rattle.std.specs.Prelude.{◌≡◌, length, IfOk, OnOk, OnErr};
ghost use Rattle.std.proofs.Math.Seq.{paste};
ghost use Rattle.replay.specs.Replays.{replayed, handed_out};

use crate::replaying::replay;
use std::alloc::{AllocError, Global};

// Writes a text at the start of `out` and answers its length; a text that is longer than `out` is not written.
fn hand_out(text: &[u8], out: &mut [u8]) -> usize
    ensures length { result ≡ length text.now }
    ensures written { out.new ≡ handed_out text.now out.old }
{
    let length = text.len();
    if length <= out.len() {
        out[0..length].copy_from_slice(text);
    }
    length
}

// The same of a replay's text.
pub fn replay_into(
    heap: Global,
    file: &[u8],
    calls: &[u8],
    out: &mut [u8],
) -> Result<usize, AllocError>
    ensures length { IfOk result (λ n. n ≡ length (replayed file.now calls.now)) }
    ensures written { OnOk result (out.new ≡ handed_out (replayed file.now calls.now) out.old) }
    ensures unwritten { OnErr result (out.new ≡ out.old) }
{
    let text = replay(heap, file, calls)?;
    Ok(hand_out(text.as_bytes(), out))
}
