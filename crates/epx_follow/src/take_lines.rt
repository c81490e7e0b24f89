//! Takes lines, and writes the texts of the batches that they end.
ghost use Rattle.std.specs.Prelude.{◌≡◌, ◌<◌, ◌≤◌, ◌+◌, ◌^◌, ◌↔◌, List, ℕ, [], true, false};
ghost use Rattle.std.specs.Prelude.{IfErr, IfOk, IsErrOf, length};
ghost use Rattle.std.specs.Io.KnownBytes.{Appends};
ghost use Rattle.epx_lines.specs.Lines.{lines_of};
ghost use Rattle.epx_follow.specs.FollowingStops.{StopsAmong, StopsAtLine};
ghost use Rattle.epx_follow.specs.LinesTaken.{TakesLine};
ghost use Rattle.epx_follow.specs.inner.PartsTaken.{TakesBytes};

use crate::follower::Follower;
use crate::lines_ahead::read_ahead;
use epx_devices::{Sink, write_out};
use epx_lines::{LineReader, cut_line};
use epx_types::{Fault, Plan};
use std::alloc::Global;
use std::random::RandomSource;
use std::thread::Threads;

/// Takes a line, and writes the text of the batch that it ends.
fn take_and_write<R: Threads + RandomSource + Sync, W: Sink>(
    rt: &R,
    alloc: Global,
    reader: &mut LineReader,
    follower: Follower,
    line: &[u8],
    each: bool,
    plan: Plan,
    output: &mut W,
) -> Result<Follower, Fault>
    requires line { follower.next.line < 2 ^ 63 }
    requires output { W.model.has_failed output.old ≡ false }
    ensures taken { IfOk result (λ next. (text : List ℕ)
        × TakesLine each line.now follower next text
        × Appends (W.model.contents output.old) (W.model.contents output.new) text) }
    ensures counted { IfOk result (λ next. next.next.line ≡ follower.next.line + 1) }
    ensures stopped { IfErr result (λ fault. StopsAtLine each follower line.now fault []
        (W.model.contents output.old) (W.model.contents output.new)) }
    ensures failed { IsErrOf result Fault.Write ↔ (W.model.has_failed output.new ≡ true) }
{
    let (next, text) = follower.take_line(rt, alloc, reader, line, each, plan)?;
    if !text.is_empty() {
        write_out(&text, output)?;
    }
    Ok(next)
}

/// Takes the lines of some bytes.
pub(crate) fn take_lines<R: Threads + RandomSource + Sync, W: Sink>(
    rt: &R,
    alloc: Global,
    reader: &mut LineReader,
    follower: Follower,
    bytes: &[u8],
    each: bool,
    plan: Plan,
    output: &mut W,
) -> Result<Follower, Fault>
    requires lines { follower.next.line + length bytes.now < 2 ^ 63 }
    requires output { W.model.has_failed output.old ≡ false }
    ensures taken { IfOk result (λ next. TakesBytes each follower bytes.now next
        (W.model.contents output.old) (W.model.contents output.new)) }
    ensures counted { IfOk result (λ next. next.next.line
        ≤ follower.next.line + length bytes.now) }
    ensures stopped { IfErr result (λ fault. StopsAmong each follower (lines_of bytes.now) fault []
        (W.model.contents output.old) (W.model.contents output.new)) }
    ensures failed { IsErrOf result Fault.Write ↔ (W.model.has_failed output.new ≡ true) }
{
    let mut ahead = read_ahead(rt, alloc, bytes, plan);
    let mut follower = follower;
    let mut rest = bytes;
    while !rest.is_empty() {
        let (held, others) = follower.hold_lines(alloc, reader, &mut ahead, rest, each)?;
        if others.is_empty() {
            return Ok(held);
        }
        let (line, more) = cut_line(others);
        follower = take_and_write(rt, alloc, reader, held, line, each, plan, output)?;
        rest = more;
    }
    Ok(follower)
}
