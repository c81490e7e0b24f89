//! Calls that are repeated if a signal interrupts them.
ghost use Rattle.std.specs.Io.{ReadsAtMost, WritesAtMost};
ghost use Rattle.std.specs.Io.KnownBytes.{Keeps, ReadConsumes, WriteAppends};

use std::io::{self, Error, ErrorKind, Read, Write};

/// A call that is interrupted more often than this in a row fails. So each call returns.
const MAX_RETRIES: usize = 1_000;

/// Whether a signal interrupted the call, which may be repeated then.
fn is_interrupted(error: &Error) -> bool {
    error.kind() == ErrorKind::Interrupted
}

/// Reads, and repeats a read that was interrupted.
pub(crate) fn retry_read<R: Read>(reader: &mut R, part: &mut [u8]) -> io::Result<usize>
    ensures bound { ReadsAtMost result part.new }
    ensures bytes { ReadConsumes (R.remaining reader.old) (R.remaining reader.new) result part.new }
{
    for _ in 0..MAX_RETRIES {
        match reader.read(part) {
            Ok(count) => return Ok(count),
            Err(error) => {
                if !is_interrupted(&error) {
                    return Err(error);
                }
            }
        }
    }
    reader.read(part)
}

/// Writes, and repeats a write that was interrupted.
pub(crate) fn retry_write<W: Write>(writer: &mut W, part: &[u8]) -> io::Result<usize>
    ensures bound { WritesAtMost result part.now }
    ensures bytes { WriteAppends (W.contents writer.old) (W.contents writer.new) result part.now }
{
    for _ in 0..MAX_RETRIES {
        match writer.write(part) {
            Ok(count) => return Ok(count),
            Err(error) => {
                if !is_interrupted(&error) {
                    return Err(error);
                }
            }
        }
    }
    writer.write(part)
}

/// Flushes, and repeats a flush that was interrupted.
pub(crate) fn retry_flush<W: Write>(writer: &mut W) -> io::Result<()>
    ensures { Keeps (W.contents writer.old) (W.contents writer.new) }
{
    for _ in 0..MAX_RETRIES {
        match writer.flush() {
            Ok(()) => return Ok(()),
            Err(error) => {
                if !is_interrupted(&error) {
                    return Err(error);
                }
            }
        }
    }
    writer.flush()
}
