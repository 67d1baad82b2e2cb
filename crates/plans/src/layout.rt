// Laying out: the schedule, where its stretches start, and who waits for whom.
ghost use Rattle.std.specs.Prelude.{◌≡◌, length};
ghost use Rattle.std.specs.Result.{result_err};
ghost use Rattle.checks.specs.Verdicts.{unless_refused};
ghost use Rattle.plans.specs.Tilings.{schedule_of, schedule_starts_of};
ghost use Rattle.plans.specs.Words.{wait_words_of};
ghost use Rattle.plans.specs.Opening.{laying_out_fault};
ghost use Rattle.plans.specs.Lent.{tiling_lent};

use crate::lent::Tiling;
use crate::table::TileTable;
use crate::table::checking::Lengths;
use checks::Fault;

pub fn lay_out(
    tiling: &Tiling<'_>,
    schedule: &mut [u32],
    schedule_starts: &mut [u32],
    wait_words: &mut [u64],
) -> Result<(), Fault>
    ensures fault { result_err result ≡ laying_out_fault (tiling_lent tiling.now) (length schedule.old) (length schedule_starts.old) (length wait_words.old) }
    ensures schedule { schedule.new ≡ unless_refused (laying_out_fault (tiling_lent tiling.now) (length schedule.old) (length schedule_starts.old) (length wait_words.old)) (schedule_of (tiling_lent tiling.now)) schedule.old }
    ensures starts { schedule_starts.new ≡ unless_refused (laying_out_fault (tiling_lent tiling.now) (length schedule.old) (length schedule_starts.old) (length wait_words.old)) (schedule_starts_of (tiling_lent tiling.now)) schedule_starts.old }
    ensures words { wait_words.new ≡ unless_refused (laying_out_fault (tiling_lent tiling.now) (length schedule.old) (length schedule_starts.old) (length wait_words.old)) (wait_words_of (tiling_lent tiling.now)) wait_words.old }
{
    let lengths = Lengths {
        schedule: schedule.len(),
        starts: schedule_starts.len(),
        words: wait_words.len(),
    };
    let table = TileTable::check(*tiling, lengths)?;
    table.count_stretches(schedule_starts);
    table.place_rows(schedule_starts, schedule);
    table.note_waits(wait_words);
    Ok(())
}
