//! Lines of logs, gathered for the workers.
ghost use Rattle.std.specs.Prelude.{◌≡◌, ◌<◌, ◌≤◌, ◌+◌, ◌-◌, ◌++◌, ◌∷◌, [], List, suc, length};
ghost use Rattle.std.specs.Prelude.{IfOk, OnOk, slice_get, take, drop};
ghost use Rattle.epx_lines.specs.Lines.{lines_of};
ghost use Rattle.epx_types.specs.Limits.{max_log_bytes};
ghost use Rattle.epx_merge.specs.LogLines.{MeaningAt, meanings_in};
ghost use Rattle.epx_merge.specs.between.RedundantLines.{DropsCached};

use crate::line::PlacedLine;
use epx_lines::is_blank_line;
use epx_types::{Memory, Place};
use memchr::memchr;
use std::alloc::Global;
use std::marker::Model;

/// Where a line of a batch is: its place in the logs, and the range of its bytes in the batch.
#[derive(Clone, Copy, Debug)]
struct Span {
    place: Place,
    start: usize,
    end: usize,
}

/// Lines that are gathered, so that they are read together, and their bytes. Contracts see the
/// place and the meaning of each.
#[derive(Debug)]
pub struct LineBatch {
    bytes: Vec<u8>,
    spans: Vec<Span>,
}

impl Drop for LineBatch {
    fn drop(self) {
        let LineBatch { bytes: _, spans: _ } = self;
    }
}

impl Model for LineBatch {
    ghost use Rattle.std.specs.Prelude.{List, map, length, take, drop, All, ◌≤◌, ◌-◌};
    ghost use Rattle.epx_merge.specs.LogLines.{MeaningAt, meaning_at};

    ghost Value = { List MeaningAt };

    ghost view = { λ b. map
        (λ s. meaning_at s.place (take (s.end - s.start) (drop s.start b.bytes.items)))
        b.spans.items };

    ghost invariant = { λ b.
        All (λ s. (s.start ≤ s.end) × (s.end ≤ length b.bytes.items)) b.spans.items };
}

/// Where the line that begins at an index ends: at its line feed, or where the bytes end.
fn line_end(bytes: &[u8], start: usize) -> usize
    requires { start < length bytes.now }
    ensures within { (start ≤ result) × (result ≤ length bytes.now) }
    ensures lines { lines_of (drop start bytes.now)
        ≡ take (result - start) (drop start bytes.now) ∷ lines_of (drop (result + 1) bytes.now) }
{
    match memchr(b'\n', &bytes[start..]) {
        Some(len) => start + len,
        None => bytes.len(),
    }
}

impl LineBatch {
    /// A batch of no lines.
    pub fn new(alloc: Global) -> LineBatch
        ensures { result ≡ [] }
    {
        LineBatch {
            bytes: Vec::new(alloc),
            spans: Vec::new(alloc),
        }
    }

    /// The number of lines that it holds. Blank lines are not among them.
    pub fn len(&self) -> usize
        ensures { result ≡ length self.now }
    {
        self.spans.len()
    }

    /// The number of bytes that it holds.
    // No clause: it only decides how many lines are read at a time, which changes no answer.
    pub fn size(&self) -> usize {
        self.bytes.len()
    }

    /// Removes all lines. Their memory is used again.
    pub fn clear(&mut self)
        ensures { self.new ≡ [] }
    {
        self.spans.clear();
        self.bytes.clear();
    }

    /// The line with this index.
    pub fn line(&self, index: usize) -> Option<PlacedLine<'_>>
        ensures { result ≡ slice_get self.now index }
    {
        let span = self.spans.get(index)?;
        Some(PlacedLine::new(span.place, &self.bytes[span.start..span.end]))
    }

    /// The lines of a range of indices.
    pub(crate) fn lines(
        &self,
        alloc: Global,
        start: usize,
        end: usize,
    ) -> Result<Vec<PlacedLine<'_>>, Memory>
        requires order { start ≤ end }
        requires within { end ≤ length self.now }
        ensures { IfOk result (λ v. v.items ≡ take (end - start) (drop start self.now)) }
    {
        let mut lines = Vec::with_capacity(alloc, end - start)?;
        for span in &self.spans[start..end] {
            lines.push(PlacedLine::new(span.place, &self.bytes[span.start..span.end]))?;
        }
        Ok(lines)
    }

    /// Appends the lines of a part of a log, of which so many came before, and leaves blank ones
    /// out. Returns the number of the last line.
    pub fn add_part(&mut self, log: usize, before: usize, bytes: &[u8]) -> Result<usize, Memory>
        ensures lines { before + length bytes.now ≤ max_log_bytes → (cut : List MeaningAt)
            → DropsCached [] cut self.old → IfOk result (λ last.
            DropsCached [] (cut ++ meanings_in log (suc before) (lines_of bytes.now)) self.new
            × (last ≡ before + length (lines_of bytes.now))) }
        ensures few { OnOk result (length self.new ≤ length self.old + length bytes.now) }
    {
        // The bytes are copied at once, which is faster than line by line. What lies between the
        // spans, as line feeds and blank lines, is never read.
        let base = self.bytes.len();
        self.bytes.extend_from_slice(bytes)?;
        let mut line = before;
        let mut done = 0;
        while done < bytes.len() {
            let end = line_end(bytes, done);
            line = line.wrapping_add(1);
            if !is_blank_line(&bytes[done..end]) {
                let place = Place { log, line };
                self.spans.push(Span {
                    place,
                    start: base + done,
                    end: base + end,
                })?;
            }
            // Past the line feed. A last line without one ends the loop too.
            done = end + 1;
        }
        Ok(line)
    }
}
