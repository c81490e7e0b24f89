//! Gathers the lines of sources, part by part.
ghost use Rattle.std.specs.Prelude.{◌≡◌, ◌≤◌, ◌<◌, ◌+◌, ◌++◌, ◌^◌, List, [], length, take, drop};
ghost use Rattle.std.specs.Prelude.{true, false};
ghost use Rattle.std.specs.Prelude.{OnOk, Err, MatchResult};
ghost use Rattle.epx_types.specs.Limits.{max_logs};
ghost use Rattle.epx_merge.specs.LogLines.{MeaningAt};
ghost use Rattle.epx_merge.specs.LogParts.{EndsLine};
ghost use Rattle.epx_merge.specs.between.RedundantLines.{DropsCached};
ghost use Rattle.epx_merge.specs.inner.Gathered.{AreGathered, most_unread};
ghost use Rattle.epx_merge.specs.between.SourceReadings.{EndsReading};

use crate::line_batch::LineBatch;
use crate::split_lines::lines_end;
use epx_devices::{LogPart, Source, read_on};
use epx_types::Fault;
use std::alloc::Global;
use std::mem;

/// A part of a log has about this many bytes. So few stay in a processor's cache until their lines
/// are cut.
const PART_BYTES: usize = 65_536;

/// A batch is full once it has this many bytes, so that long lines, and blank ones, which no batch
/// counts, take no more memory.
const MOST_BYTES: usize = 16 * 1_024 * 1_024;

/// How far sources are read. They are read in order.
#[derive(Drop)]
pub(crate) struct ReadPosition {
    /// The number of the log that is read now.
    log: usize,
    /// The number of its lines that are gathered.
    line: usize,
    /// The number of their bytes.
    done: usize,
    /// The bytes after them that are read: the beginning of a line.
    rest: Vec<u8>,
}

/// Removes so many bytes at the front.
fn remove_front(bytes: &mut Vec<u8>, count: usize)
    requires { count ≤ length bytes.old.items }
    ensures { bytes.new.items ≡ drop count bytes.old.items }
{
    let len = bytes.len();
    bytes.copy_within(count..len, 0);
    bytes.truncate(len - count);
}

/// The number of bytes of a part up to the end of its last whole line. The last line of a log may
/// have no line feed.
fn whole_lines(part: &LogPart) -> usize
    ensures within { result ≤ length part.now.bytes.items }
    ensures last { part.now.is_last ≡ true → result ≡ length part.now.bytes.items }
    ensures lines { part.now.is_last ≡ false → EndsLine (take result part.now.bytes.items) }
{
    if part.is_last {
        part.bytes.len()
    } else {
        lines_end(&part.bytes)
    }
}

/// Reads a part of the source at this position, and adds its whole lines to the batch.
fn gather_part<S: Source>(
    alloc: Global,
    sources: &mut [S],
    at: &mut ReadPosition,
    batch: &mut LineBatch,
) -> Result<(), Fault>
    requires within { at.old.log < length sources.old }
    requires few { length sources.old ≤ max_logs }
    requires begun { (first : _) × (lines : _)
        × AreGathered S.model first sources.old at.old lines }
    ensures lines { (first : _) (lines cut : List MeaningAt)
        → AreGathered S.model first sources.old at.old lines
        → DropsCached [] cut batch.old → MatchResult result
        (λ _. (more : List MeaningAt) × DropsCached [] (cut ++ more) batch.new
        × AreGathered S.model first sources.new at.new (lines ++ more))
        (λ fault. EndsReading S.model first sources.new (Err fault)) }
    ensures fewer { OnOk result
        (most_unread (length sources.new) at.new < most_unread (length sources.old) at.old) }
    ensures few { OnOk result (length batch.new ≤ length batch.old + 2 ^ 26) }
{
    let rest = mem::replace(&mut at.rest, Vec::new(alloc));
    // A line longer than a part doubles it, so the bytes are searched for line ends in linear time.
    let most = PART_BYTES.max(2 * rest.len());
    let part = match read_on(at.log, &mut sources[at.log], at.done, rest, most) {
        Ok(part) => part,
        Err(fault) => return Err(fault),
    };
    let end = whole_lines(&part);
    let LogPart { mut bytes, is_last } = part;
    let Ok(line) = batch.add_part(at.log, at.line, &bytes[..end]) else {
        return Err(Fault::Memory);
    };
    remove_front(&mut bytes, end);
    *at = if is_last {
        ReadPosition {
            log: at.log + 1,
            line: 0,
            done: 0,
            rest: bytes,
        }
    } else {
        ReadPosition {
            log: at.log,
            line,
            done: at.done + end,
            rest: bytes,
        }
    };
    Ok(())
}

impl ReadPosition {
    /// No source is read yet.
    pub(crate) fn new(alloc: Global) -> ReadPosition
        ensures { (result.log ≡ 0) × (result.line ≡ 0) × (result.done ≡ 0)
            × (result.rest.items ≡ []) }
    {
        ReadPosition {
            log: 0,
            line: 0,
            done: 0,
            rest: Vec::new(alloc),
        }
    }

    /// The number of logs that are read to their ends.
    pub(crate) fn logs(&self) -> usize
        ensures { result ≡ self.now.log }
    {
        self.log
    }

    /// Whether nothing is read of the second log, and all of the first. With `each`, whether this
    /// is so of any two logs.
    fn ends_log(&self, each: bool) -> bool {
        (self.log == 1 || each && self.log > 1) && self.line == 0 && self.rest.is_empty()
    }
}

/// Gathers lines of the sources from this position on, until the batch has so many, or is full, or
/// no source is left. A batch of the first log ends with it, so that the lines of later logs that
/// repeat its lines are recognized. With `each` a batch of every log does.
pub(crate) fn gather<S: Source>(
    alloc: Global,
    sources: &mut [S],
    at: &mut ReadPosition,
    batch: &mut LineBatch,
    most: usize,
    each: bool,
) -> Result<(), Fault>
    requires within { at.old.log < length sources.old }
    requires few { length sources.old ≤ max_logs }
    requires empty { batch.old ≡ [] }
    requires most { most ≤ 2 ^ 32 }
    requires begun { (first : _) × (lines : _)
        × AreGathered S.model first sources.old at.old lines }
    ensures lines { (first : _) (lines : List MeaningAt)
        → AreGathered S.model first sources.old at.old lines → MatchResult result
        (λ _. (cut : List MeaningAt) × DropsCached [] cut batch.new
        × AreGathered S.model first sources.new at.new (lines ++ cut))
        (λ fault. EndsReading S.model first sources.new (Err fault)) }
    ensures fewer { OnOk result
        (most_unread (length sources.new) at.new < most_unread (length sources.old) at.old) }
    ensures few { OnOk result (length batch.new ≤ 2 ^ 40) }
{
    match gather_part(alloc, sources, at, batch) {
        Ok(()) => (),
        Err(fault) => return Err(fault),
    }
    while at.log < sources.len()
        && batch.len() < most
        && batch.size() < MOST_BYTES
        && !at.ends_log(each)
    {
        match gather_part(alloc, sources, at, batch) {
            Ok(()) => (),
            Err(fault) => return Err(fault),
        }
    }
    Ok(())
}
