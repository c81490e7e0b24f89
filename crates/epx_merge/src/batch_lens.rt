//! The number of lines that the workers read at once.
ghost use Rattle.std.specs.Prelude.{◌<◌, ◌≤◌};

use epx_types::Plan;

/// The least number of lines in a batch for each of several workers, in the first log. Fewer are
/// not worth a thread.
const MIN_LINES_EACH: usize = 4_096;

/// The least number of lines in a batch for each of several workers, in later logs. Most of their
/// lines repeat earlier ones, and are skipped in little time.
const MIN_LATER_LINES_EACH: usize = 8_192;

/// The least number of lines in a batch for one worker, which starts no thread. So few lines stay
/// in its processor's cache until it reads them.
const MIN_LINES_ALONE: usize = 1_024;

/// The greatest number of lines in a batch, so that longer logs take no more memory. Up to two
/// batches are in memory: one is read while the next is cut.
const MAX_BATCH_LINES: usize = 262_144;

/// The number of lines in a batch: four pieces for each worker, within the bounds.
pub fn batch_len(plan: Plan, in_first_log: bool) -> usize
    ensures some { 0 < result }
    ensures few { result ≤ 262144 }
{
    let least = if plan.workers() == 1 {
        MIN_LINES_ALONE
    } else if in_first_log {
        MIN_LINES_EACH
    } else {
        MIN_LATER_LINES_EACH
    };
    let each = (4 * plan.cut()).max(least);
    (plan.workers() * each).min(MAX_BATCH_LINES)
}
