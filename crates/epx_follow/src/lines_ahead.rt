//! Lines that workers read before they are taken.
ghost use Rattle.std.specs.Prelude.{◌≡◌, ◌<◌, All, IfOk, IfSome, Ok, length};
ghost use Rattle.epx_lines.specs.Meaning.{meaning_of};
ghost use Rattle.epx_types.specs.Pieces.{piece_count};
ghost use Rattle.epx_follow.specs.inner.LinesAhead.{IsReadRight};
ghost use Rattle.epx_follow.specs.inner.OpenBatches.{IsReadOf};

use epx_claims::{FreeGate, claimed_map};
use epx_lines::{Line, LineFault, LineReader, cut_lines, is_blank_line};
use epx_types::{Memory, Plan};
use std::alloc::Global;
use std::marker::Model;
use std::thread::Threads;

/// Of fewer bytes the lines are read as they are taken: they are not worth the threads.
const MIN_BYTES: usize = 16_384;

/// Of more lines, too: workers draw the numbers of at most so many pieces.
const MAX_LINES: usize = 1 << 40;

/// A line, and what it means.
#[derive(Drop)]
pub(crate) struct ReadLine<'a> {
    pub(crate) bytes: &'a [u8],
    pub(crate) line: Line,
}

/// Lines that were read, those that come first at the end.
pub(crate) struct LinesAhead<'a> {
    next: Vec<ReadLine<'a>>,
    others: Vec<Vec<ReadLine<'a>>>,
}

impl Drop for LinesAhead<'_> {
    fn drop(self) {
        let LinesAhead { next: _, others: _ } = self;
    }
}

impl<'a> Model for LinesAhead<'a> {
    ghost use Rattle.std.specs.Prelude.{All};
    ghost use Rattle.epx_follow.specs.inner.LinesAhead.{IsReadRight};

    ghost Value = { Unit {0} };

    ghost view = { λ _. record {} };

    ghost invariant = { λ a. All IsReadRight a.next.items
        × All (λ part. All IsReadRight part.items) a.others.items };
}

/// Reads the lines of a piece, the last one first. Leaves out those that are blank or bad.
fn read_piece<'a>(
    alloc: Global,
    lines: &[&'a [u8]],
    plan: Plan,
    piece: usize,
) -> Result<Vec<ReadLine<'a>>, Memory>
    requires { piece < piece_count plan.cut (length lines.now) }
    ensures { IfOk result (λ read. All IsReadRight read.items) }
{
    let (start, end) = plan.range(piece, lines.len());
    let mut reader = LineReader::new(alloc);
    let mut read = Vec::with_capacity(alloc, end - start)?;
    for bytes in lines[start..end].iter().rev() {
        if is_blank_line(bytes) {
            continue;
        }
        if let Ok(line) = reader.read(alloc, bytes) {
            read.push(ReadLine { bytes, line })?;
        }
    }
    Ok(read)
}

/// Reads the lines of some bytes.
fn read_all<'a, R: Threads + Sync>(
    rt: &R,
    alloc: Global,
    bytes: &'a [u8],
    plan: Plan,
) -> Result<LinesAhead<'a>, Memory> {
    let lines = cut_lines(alloc, bytes)?;
    if lines.len() > MAX_LINES {
        return Ok(LinesAhead::none(alloc));
    }
    let pieces = plan.pieces(lines.len());
    // The piece that comes first is the last one in the list.
    let others = claimed_map(rt, alloc, pieces, plan, &FreeGate, |number| {
        read_piece(alloc, &lines, plan, pieces - 1 - number)
    })?;
    Ok(LinesAhead {
        next: Vec::new(alloc),
        others,
    })
}

/// Reads the lines of some bytes, if that is worth the plan's workers. Where memory runs out, none
/// is read.
pub(crate) fn read_ahead<'a, R: Threads + Sync>(
    rt: &R,
    alloc: Global,
    bytes: &'a [u8],
    plan: Plan,
) -> LinesAhead<'a> {
    if plan.workers() == 1 || bytes.len() < MIN_BYTES {
        return LinesAhead::none(alloc);
    }
    match read_all(rt, alloc, bytes, plan) {
        Ok(ahead) => ahead,
        Err(Memory) => LinesAhead::none(alloc),
    }
}

impl<'a> LinesAhead<'a> {
    /// No line was read.
    fn none(alloc: Global) -> LinesAhead<'a> {
        LinesAhead {
            next: Vec::new(alloc),
            others: Vec::new(alloc),
        }
    }

    /// Begins with the next piece, once the lines of one are taken.
    fn begin_piece(&mut self) {
        if self.next.is_empty() {
            if let Some(piece) = self.others.pop() {
                self.next = piece;
            }
        }
    }

    /// What a line means, if it is the next of those that were read.
    fn take(&mut self, bytes: &[u8]) -> Option<Line>
        ensures { IfSome result (λ line. meaning_of bytes.now ≡ Ok line) }
    {
        self.begin_piece();
        let ReadLine { bytes: own, line } = self.next.pop()?;
        if own == bytes {
            return Some(line);
        }
        drop(line);
        None
    }

    /// Reads a line, as `LineReader::read` does, unless it was read.
    pub(crate) fn read(
        &mut self,
        alloc: Global,
        reader: &mut LineReader,
        bytes: &[u8],
    ) -> Result<Line, LineFault>
        ensures { IsReadOf bytes.now result }
    {
        match self.take(bytes) {
            Some(line) => Ok(line),
            None => reader.read(alloc, bytes),
        }
    }
}
