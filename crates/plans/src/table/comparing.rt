// Tables that were laid out somewhere, against those that are defined.
ghost use Rattle.std.specs.Prelude.{◌≡◌, not, [], ◌∷◌, length};
ghost use Rattle.std.specs.Result.{result_err};
ghost use Rattle.std.specs.List.{position, zip};
ghost use Rattle.checks.specs.Verdicts.{first_fault};
ghost use Rattle.plans.specs.Opening.{lawful_fault, starts_fault, schedule_fault, words_fault};
ghost use Rattle.plans.specs.Checked.{Laid};
ghost use Rattle.plans.specs.Lent.{tiling_of};

use super::TileTable;
use crate::lent::Layout;
use checks::{Check, Fault, Layer};
use matrix::sizes::{MOST_SWEEPS, MOST_TILES};

// Kept: calls over lent tables allocate nothing, so a buffer has room for the most starts, and one for the most words.
const MOST_STARTS: usize = MOST_TILES as usize * MOST_SWEEPS as usize + 1;

const MOST_WORDS: usize = MOST_TILES as usize;

// The lowest place where a table is not as defined.
fn first_other<N: PartialEq>(table: &[N], defined: &[N]) -> Option<usize>
    ensures { result ≡ position (λ pair. not (N.eq pair.0 pair.1)) (zip table.now defined.now) }
{
    let mut pairs = table.iter().zip(defined);
    pairs.position(|(entry, wanted)| entry != wanted)
}

impl TileTable<'_> {
    fn check_schedule(&self, layout: &Layout) -> Result<(), Fault>
        requires { Laid self.now.tiling (length layout.now.schedule.now) (length layout.now.starts.now) (length layout.now.words.now) }
        ensures { result_err result ≡ first_fault (starts_fault (tiling_of self.now) layout.now.starts.now ∷ schedule_fault (tiling_of self.now) layout.now.schedule.now ∷ []) }
    {
        let mut ends = [0; MOST_STARTS];
        let defined = &mut ends[0..self.tiling.tiles as usize * self.tiling.sweeps as usize + 1];
        self.count_stretches(defined);
        let misplaced = self.misplaced(defined, layout.schedule);
        let other = first_other(layout.starts, defined);
        Check::ScheduleStart.refuse_found(other, Layer::Plan)?;
        Check::Schedule.refuse_found(misplaced, Layer::Plan)
    }

    // Lawful, and schedule, starts and words as defined.
    pub(crate) fn check_laid_out(&self, layout: &Layout) -> Result<(), Fault>
        requires { Laid self.now.tiling (length layout.now.schedule.now) (length layout.now.starts.now) (length layout.now.words.now) }
        ensures { result_err result ≡ first_fault (lawful_fault (tiling_of self.now) ∷ starts_fault (tiling_of self.now) layout.now.starts.now ∷ schedule_fault (tiling_of self.now) layout.now.schedule.now ∷ words_fault (tiling_of self.now) layout.now.words.now ∷ []) }
    {
        let mut noted = [0; MOST_WORDS];
        let defined = &mut noted[0..self.tiling.tiles as usize];
        let overtaken = self.note_waits(defined);
        Check::Lawful.refuse_found(overtaken, Layer::Plan)?;
        self.check_schedule(layout)?;
        Check::WaitWord.refuse_found(first_other(layout.words, defined), Layer::Plan)
    }
}
