// A set of tiles, held as a word with tile t's bit.
ghost use Rattle.std.specs.Prelude.{◌≡◌, ℕ, ◌^◌, ◌<◌, not, ◌&&◌, bit_or};
ghost use Rattle.std.specs.Result.{result_err};
ghost use Rattle.checks.specs.declared.Check.TheVariants.{TileWaiting};
ghost use Rattle.checks.specs.declared.Layer.TheVariants.{Run as RunLayer};
ghost use Rattle.checks.specs.Verdicts.{lowest};
ghost use Rattle.plans.specs.Words.{bit};
ghost use Rattle.runs.specs.Calls.{all_done};

use checks::{Check, Fault, Layer};
use std::marker::Model;

#[derive(Clone, Copy)]
pub(crate) struct TileSet(pub(crate) u64);

// A clause sees the word.
impl Model for TileSet {
    ghost Value = { ℕ };

    ghost view = { λ s. s.0 };

    ghost inverse = { λ w. record { 0 = w } };
}

impl TileSet {
    pub(crate) fn has(self, tile: u32) -> bool
        ensures { result ≡ bit self tile }
    {
        self.0.checked_shr(tile).unwrap_or(0) % 2 == 1
    }

    pub(crate) fn has_all(self, tiles: u32) -> bool
        ensures { result ≡ all_done tiles self }
    {
        (0..tiles).all(|t| self.has(t))
    }

    pub(crate) fn insert(&mut self, tile: u32)
        requires { tile < 64 }
        ensures { self.new ≡ bit_or self.old (2 ^ tile) }
    {
        self.0 |= 1 << tile;
    }

    // Refuses at the lowest of these tiles that is not done.
    pub(crate) fn check_done(self, done: TileSet, tiles: u32) -> Result<(), Fault>
        ensures { result_err result ≡ lowest RunLayer TileWaiting (λ t. bit self t && not (bit done t)) tiles }
    {
        for t in 0..tiles {
            let waits = self.has(t) && !done.has(t);
            Check::TileWaiting.refuse_if(waits, t as usize, Layer::Run)?;
        }
        Ok(())
    }
}
