//! A line of a log, before it is parsed.
ghost use Rattle.std.specs.Prelude.{◌≡◌, Ok, IfOk, IfErr, IsTrue};
ghost use Rattle.epx_lines.specs.Meaning.{meaning_of};
ghost use Rattle.epx_lines.specs.between.Faults.{IsFaultOf};
ghost use Rattle.epx_lines.specs.declared.Line.TheVariants as line;
ghost use Rattle.epx_merge.specs.LogLines.{meaning_at};

use epx_lines::{Line, LineFault, LineReader, is_blank_line};
use epx_types::Place;
use std::alloc::Global;
use std::marker::Model;

/// A line's place and bytes. Contracts see its place and its meaning.
#[derive(Drop)]
pub struct PlacedLine<'a> {
    place: Place,
    bytes: &'a [u8],
}

impl<'a> Model for PlacedLine<'a> {
    ghost use Rattle.epx_merge.specs.LogLines.{MeaningAt, meaning_at};

    ghost Value = { MeaningAt };

    ghost view = { λ l. meaning_at l.place l.bytes.now };
}

impl<'a> PlacedLine<'a> {
    /// The line of these bytes, which have no line feed, at a place.
    pub(crate) fn new(place: Place, bytes: &'a [u8]) -> PlacedLine<'a>
        ensures { result ≡ meaning_at place bytes.now }
    {
        PlacedLine { place, bytes }
    }

    /// The log and the number of the line.
    pub fn place(&self) -> Place
        ensures { result ≡ self.now.place }
    {
        self.place
    }

    /// The text of the line.
    // The clause is about what it means: lines of one meaning are equal to all that read them.
    pub fn bytes(&self) -> &'a [u8]
        ensures { meaning_of result.now ≡ self.now.meaning }
    {
        self.bytes
    }

    /// Whether the line is seen to be blank without parsing it.
    pub(crate) fn is_blank(&self) -> bool
        ensures { IsTrue result → self.now.meaning ≡ Ok line.Blank }
    {
        is_blank_line(self.bytes)
    }

    /// Reads the line with the reader's buffers.
    pub fn read(&self, alloc: Global, reader: &mut LineReader) -> Result<Line, LineFault>
        ensures line { IfOk result (λ l. self.now.meaning ≡ Ok l) }
        ensures fault { IfErr result (λ f. IsFaultOf f self.now.meaning) }
    {
        reader.read(alloc, self.bytes)
    }
}
