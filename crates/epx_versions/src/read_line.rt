//! What workers read of lines.
ghost use Rattle.std.specs.Prelude.{◌≡◌, IfOk, Some};
ghost use Rattle.epx_versions.specs.between.ReadMeanings.{AreReadSo, meaning_in};

use crate::hashed_version::HashedVersion;
use epx_lines::{Line, LineFault, LineReader};
use epx_merge::{LineCache, PlacedLine};
use epx_seed::Seed;
use epx_types::{Memory, Why};
use std::alloc::Global;

/// What a worker reads of a line.
#[derive(Debug, Drop)]
pub enum ReadLine {
    Blank,
    /// A line that the cache lacks: what it commits, and the hash of its bytes.
    Fresh(HashedVersion, u64),
    /// A line of the cache, by its number there.
    Repeat(usize),
    Bad(Why),
}

/// Reads a line. One that the cache has is not parsed again.
fn read_line(
    alloc: Global,
    reader: &mut LineReader,
    seed: Seed,
    cache: &LineCache<'_>,
    line: &PlacedLine<'_>,
) -> Result<ReadLine, Memory>
    ensures { IfOk result (λ read. meaning_in seed cache.now read ≡ Some line.now.meaning) }
{
    let hash = cache.hash_of(line.bytes());
    if let Some(number) = cache.find(hash, line.bytes()) {
        return Ok(ReadLine::Repeat(number));
    }
    match line.read(alloc, reader) {
        Ok(Line::Blank) => Ok(ReadLine::Blank),
        Ok(Line::Entry(entry)) => Ok(ReadLine::Fresh(HashedVersion::new(entry, seed), hash)),
        Err(LineFault::Memory) => Err(Memory),
        Err(LineFault::Bad(why)) => Ok(ReadLine::Bad(why)),
    }
}

/// Reads lines in order, and hashes what they commit with the seed.
pub(crate) fn read_lines(
    alloc: Global,
    seed: Seed,
    cache: &LineCache<'_>,
    lines: &[PlacedLine<'_>],
) -> Result<Vec<ReadLine>, Memory>
    ensures { IfOk result (λ reads.
        AreReadSo seed cache.now lines.now reads.items) }
{
    let mut reader = LineReader::new(alloc);
    let mut reads = Vec::with_capacity(alloc, lines.len())?;
    for line in lines {
        reads.push(read_line(alloc, &mut reader, seed, cache, line)?)?;
    }
    Ok(reads)
}
