//! Logs that are too long.
ghost use Rattle.std.specs.Prelude.{MatchOption};
ghost use Rattle.epx_merge.specs.Refusals.{IsFirstTooLong, NoneTooLong};
ghost use Rattle.epx_merge.specs.LogLines.{bytes_of};

use epx_types::limits::MAX_LOG_BYTES;

/// The first log that is longer than `MAX_LOG_BYTES`, if any is.
pub fn first_too_long(logs: &[Vec<u8>]) -> Option<usize>
    ensures { let bytes = bytes_of logs.now in
        MatchOption result (NoneTooLong bytes) (IsFirstTooLong bytes) }
{
    for (number, log) in logs.iter().enumerate() {
        if log.len() > MAX_LOG_BYTES {
            return Some(number);
        }
    }
    None
}
