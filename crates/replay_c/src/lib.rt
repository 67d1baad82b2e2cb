// Replay for callers in other languages.
#![tactic(auto)]

ghost use Rattle.std.specs.Prelude.{◌≡◌, ◌⊎◌, length};
ghost use Rattle.replay.specs.Replays.{replayed, handed_out};

use replay::exporting::replay_into;
use std::alloc::Global;

// Writes a replay's text at the start of `out` and answers its length; a text that is longer than `out` is not written.
// 0 where memory is wanting.
#[unsafe(no_mangle)]
pub extern "C" fn curtzano_replay(heap: Global, file: &[u8], calls: &[u8], out: &mut [u8]) -> usize
    ensures { ((result ≡ 0) × (out.new ≡ out.old)) ⊎ ((result ≡ length (replayed file.now calls.now)) × (out.new ≡ handed_out (replayed file.now calls.now) out.old)) }
{
    // Kept: 0 is what callers in C are told of want of memory; a text is never empty.
    replay_into(heap, file, calls, out).unwrap_or(0)
}
