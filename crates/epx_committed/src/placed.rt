//! Entries with their places.
ghost use Rattle.std.specs.Prelude.{◌≡◌};

use epx_types::{Entry, Id, Place};
use std::marker::Model;
use std::mem;

/// An entry, and the place of its line.
#[derive(Debug, Drop)]
pub struct PlacedEntry {
    place: Place,
    entry: Entry,
}

impl Model for PlacedEntry {
    ghost use Rattle.epx_types.specs.PlacedLines.{Placed};

    ghost Value = { Placed };

    ghost view = { λ p. record { place = p.place; instance = p.entry } };
}

impl PlacedEntry {
    /// The entry of a line, and the place of that line.
    pub fn new(place: Place, entry: Entry) -> PlacedEntry
        ensures { result ≡ record { place = place; instance = entry } }
    {
        PlacedEntry { place, entry }
    }

    /// The Id of the entry.
    pub(crate) fn id(&self) -> Id
        ensures { result ≡ self.now.instance.id }
    {
        self.entry.id()
    }

    /// The log and the number of the line.
    pub(crate) fn place(&self) -> Place
        ensures { result ≡ self.now.place }
    {
        self.place
    }

    /// The entry of the line.
    pub(crate) fn entry(&self) -> &Entry
        ensures { result.now ≡ self.now.instance }
    {
        &self.entry
    }

    /// Puts another entry in, and returns the one that was there.
    pub(crate) fn replace_entry(&mut self, entry: Entry) -> Entry
        ensures taken { result ≡ self.old.instance }
        ensures put { self.new ≡ record { place = self.old.place; instance = entry } }
    {
        mem::replace(&mut self.entry, entry)
    }
}
