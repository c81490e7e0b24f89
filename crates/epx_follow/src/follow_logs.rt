//! Follows logs while they are read, and writes the texts of their batches.
ghost use Rattle.std.specs.Prelude.{◌≡◌, ◌<◌, ◌≤◌, ◌+◌, ◌++◌, ◌^◌, ◌↔◌, List, ℕ, [], true, false};
ghost use Rattle.std.specs.Prelude.{All, IfErr, IfOk, IsErrOf, OnOk, length};
ghost use Rattle.std.specs.Io.KnownBytes.{Appends};
ghost use Rattle.epx_devices.specs.Deliveries.{DeliversAll};
ghost use Rattle.epx_merge.specs.DeliveredLogs.{EachDelivers};
ghost use Rattle.epx_follow.specs.FollowingStops.{StopsAtEnd, StopsFollowing, StopsWithin};
ghost use Rattle.epx_follow.specs.InputEnds.{EndsInput, IsFollowed, IsRest};
ghost use Rattle.epx_follow.specs.LinesTaken.{EndsIf, RefusesIf};
ghost use Rattle.epx_follow.specs.inner.PartsTaken.{StopsInPart, TakesBytes, TakesPart};

use crate::follower::Follower;
use crate::take_lines::take_lines;
use epx_devices::{Sink, Source, write_out};
use epx_lines::LineReader;
use epx_merge::lines_end;
use epx_report::append_store;
use epx_types::limits::MAX_LOGS;
use epx_types::{Fault, Memory, Plan};
use epx_views::append_waiting;
use std::alloc::Global;
use std::random::RandomSource;
use std::thread::Threads;

/// One read has room for at most this many bytes: a file gives workers enough lines to read.
const PART_BYTES: usize = 262_144;

/// The greatest number of bytes of a log.
const MOST_BYTES: usize = 1 << 62;

/// Takes the whole lines of what is read of a log: of `begun`, the beginning of a line, and the
/// part after it. Leaves in `begun` the beginning of the next line.
fn follow_part<R: Threads + RandomSource + Sync, W: Sink>(
    rt: &R,
    alloc: Global,
    reader: &mut LineReader,
    follower: Follower,
    begun: &mut Vec<u8>,
    part: &[u8],
    each: bool,
    plan: Plan,
    output: &mut W,
) -> Result<Follower, Fault>
    requires lines { follower.next.line + length (begun.old.items ++ part.now) < 2 ^ 63 }
    requires output { W.model.has_failed output.old ≡ false }
    ensures taken { IfOk result (λ next. TakesPart each follower (begun.old.items ++ part.now) next
        begun.new.items (W.model.contents output.old) (W.model.contents output.new)) }
    ensures counted { IfOk result (λ next. next.next.line + length begun.new.items
        ≤ follower.next.line + length (begun.old.items ++ part.now)) }
    ensures stopped { IfErr result (λ fault. StopsInPart each follower
        (begun.old.items ++ part.now) fault (W.model.contents output.old)
        (W.model.contents output.new)) }
    ensures failed { IsErrOf result Fault.Write ↔ (W.model.has_failed output.new ≡ true) }
{
    let end = lines_end(part);
    let mut follower = follower;
    if end > 0 {
        begun.extend_from_slice(&part[..end]).map_err(Memory::from)?;
        follower = take_lines(rt, alloc, reader, follower, begun, each, plan, output)?;
        begun.clear();
    }
    begun.extend_from_slice(&part[end..]).map_err(Memory::from)?;
    Ok(follower)
}

/// Follows the log of this number to its end.
fn follow_log<R: Threads + RandomSource + Sync, S: Source, W: Sink>(
    rt: &R,
    alloc: Global,
    reader: &mut LineReader,
    log: usize,
    follower: Follower,
    source: &mut S,
    each: bool,
    plan: Plan,
    output: &mut W,
) -> Result<Follower, Fault>
    requires line { follower.next.line ≡ 1 }
    requires source { S.model.has_failed source.old ≡ false }
    requires output { W.model.has_failed output.old ≡ false }
    ensures taken { IfOk result (λ next. (bytes : List ℕ)
        × DeliversAll S.model source.old source.new bytes
        × TakesBytes each follower bytes next (W.model.contents output.old)
        (W.model.contents output.new)) }
    ensures stopped { IfErr result (λ fault. StopsWithin S.model each log source.old source.new
        follower fault [] (W.model.contents output.old) (W.model.contents output.new)) }
    ensures failed { IsErrOf result Fault.Write ↔ (W.model.has_failed output.new ≡ true) }
{
    let mut follower = follower;
    let mut begun = Vec::new(alloc);
    let mut part = [0; PART_BYTES];
    let mut read = 0;
    'reads: loop {
        let count = match source.read_some(&mut part) {
            Ok(count) => count,
            Err(_) => return Err(Fault::Read { log }),
        };
        if count == 0 {
            break;
        }
        if count > MOST_BYTES - read {
            return Err(Fault::LogTooLong { log });
        }
        read += count;
        follower = follow_part(
            rt,
            alloc,
            reader,
            follower,
            &mut begun,
            &part[..count],
            each,
            plan,
            output,
        )?;
    }
    take_lines(rt, alloc, reader, follower, &begun, each, plan, output)
}

/// Ends the batch if it is open.
fn end_open<R: Threads + RandomSource + Sync>(
    rt: &R,
    alloc: Global,
    follower: Follower,
    plan: Plan,
) -> Result<(Follower, Vec<u8>), Fault>
    ensures ended { IfOk result (λ v. EndsIf follower.is_open follower v.0 v.1.items) }
    ensures refused { IfErr result (RefusesIf follower.is_open follower) }
{
    if follower.is_open() {
        return follower.end_batch(rt, alloc, plan);
    }
    Ok((follower, Vec::new(alloc)))
}

/// Appends the lines of what waits, and those of the store.
fn append_rest<R: Threads + RandomSource + Sync>(
    rt: &R,
    alloc: Global,
    follower: &Follower,
    plan: Plan,
    text: &mut Vec<u8>,
) -> Result<(), Memory>
    ensures { OnOk result ((rest : List ℕ) × IsRest follower.now rest
        × (text.new.items ≡ text.old.items ++ rest)) }
{
    let executor = follower.executor();
    append_waiting(alloc, text, &executor.waiting(rt, alloc, plan)?)?;
    append_store(alloc, text, executor.store())
}

/// Writes what comes once the input ends. Returns the follower after that.
fn end_input<R: Threads + RandomSource + Sync, W: Sink>(
    rt: &R,
    alloc: Global,
    follower: Follower,
    plan: Plan,
    output: &mut W,
) -> Result<Follower, Fault>
    requires { W.model.has_failed output.old ≡ false }
    ensures ended { IfOk result (λ last. (rest : List ℕ) × EndsInput follower last rest
        × Appends (W.model.contents output.old) (W.model.contents output.new) rest) }
    ensures flushed { OnOk result (W.model.is_flushed output.new ≡ true) }
    ensures stopped { IfErr result (λ fault. StopsAtEnd follower fault []
        (W.model.contents output.old) (W.model.contents output.new)) }
    ensures failed { IsErrOf result Fault.Write ↔ (W.model.has_failed output.new ≡ true) }
{
    let (last, mut text) = end_open(rt, alloc, follower, plan)?;
    append_rest(rt, alloc, &last, plan, &mut text)?;
    write_out(&text, output)?;
    Ok(last)
}

/// Follows the logs of the sources, one after another, while they are read, and writes the text of
/// each batch once it ends. A blank line ends a batch, and with `each` every line does. The end of
/// the input ends the last batch, if it has lines, and then the lines of what waits and of the
/// store are written. The output is flushed after each batch.
///
/// It goes on from `start`: a new follower, or one that goes on from an executor. Returns the
/// follower after the last line.
///
/// What is written stays where a fault stops it: the text of the batches that ended.
pub fn follow<R: Threads + RandomSource + Sync, S: Source, W: Sink>(
    rt: &R,
    alloc: Global,
    start: Follower,
    sources: &mut [S],
    each: bool,
    plan: Plan,
    output: &mut W,
) -> Result<Follower, Fault>
    requires begin { start.next ≡ record { log = 0; line = 1 } }
    requires sources { All (λ s. S.model.has_failed s ≡ false) sources.old }
    requires output { W.model.has_failed output.old ≡ false }
    ensures followed { IfOk result (λ last. (logs : List (List ℕ)) × (text : List ℕ)
        × EachDelivers S.model sources.old sources.new logs × IsFollowed start each logs last text
        × Appends (W.model.contents output.old) (W.model.contents output.new) text) }
    ensures flushed { OnOk result (W.model.is_flushed output.new ≡ true) }
    ensures stopped { IfErr result (λ fault. StopsFollowing S.model start each sources.old
        sources.new fault (W.model.contents output.old) (W.model.contents output.new)) }
    ensures failed { IsErrOf result Fault.Write ↔ (W.model.has_failed output.new ≡ true) }
{
    if sources.len() > MAX_LOGS {
        return Err(Fault::TooManyLogs);
    }
    let mut reader = LineReader::new(alloc);
    let mut follower = start;
    let mut log = 0;
    while log < sources.len() {
        let followed = follow_log(
            rt,
            alloc,
            &mut reader,
            log,
            follower,
            &mut sources[log],
            each,
            plan,
            output,
        )?;
        follower = followed.next_log();
        log += 1;
    }
    end_input(rt, alloc, follower, plan, output)
}
