//! The lines that a follower holds: those of the open batch. It has the places of what waits, too.
ghost use Rattle.std.specs.Prelude.{◌≡◌, ◌≢◌, ◌<◌, ◌≤◌, ◌+◌, ◌^◌, ℕ, List, [], length, false};
ghost use Rattle.std.specs.Prelude.{IfErr, IfOk, OnOk, Option};
ghost use Rattle.epx_lines.specs.Lines.{lines_of};
ghost use Rattle.epx_follow.specs.Following.{joined, next_line};
ghost use Rattle.epx_follow.specs.FollowingStops.{StopsAmong};
ghost use Rattle.epx_follow.specs.inner.HeldLines.{AreNewlyHeld, HoldsEntry, IsHeld};
ghost use Rattle.epx_follow.specs.inner.HeldLines.{passed_lines, view_of};
ghost use Rattle.epx_follow.specs.inner.OpenBatches.{BatchGoesOn, HoldsBytes, IsReadOf};
ghost use Rattle.epx_follow.specs.inner.OpenBatches.{RefusesText};

use crate::lines_ahead::LinesAhead;
use epx_executor::Executor;
use epx_lines::{Line, LineFault, LineReader, cut_line, is_blank_line};
use epx_types::{Entry, Fault, Id, Memory, Place};
use std::alloc::Global;
use std::collections::BTreeMap;

/// The lines that are held, and the place of the next one. If it runs out of memory, they are of
/// no more use.
#[derive(Drop)]
pub(crate) struct HeldLines {
    /// The place of the first line that came of each instance that waits, without the open batch.
    pub(crate) places: BTreeMap<Id, Place>,
    /// The instances of the open batch that are not executed.
    pub(crate) batch: Vec<Entry>,
    /// The places of their lines.
    pub(crate) batch_places: Vec<Place>,
    pub(crate) next: Place,
    pub(crate) is_open: bool,
}

impl HeldLines {
    /// No batch is open. These are the places of what waits, and that of the next line.
    pub(crate) fn new(alloc: Global, places: BTreeMap<Id, Place>, next: Place) -> HeldLines
        ensures { AreNewlyHeld places next result }
    {
        HeldLines {
            places,
            batch: Vec::new(alloc),
            batch_places: Vec::new(alloc),
            next,
            is_open: false,
        }
    }

    /// A line without an instance came, or one of an executed instance.
    pub(crate) fn pass_line(&mut self)
        requires { self.old.next.line < 2 ^ 63 }
        ensures { self.new ≡ passed_lines self.old }
    {
        self.next.line += 1;
        self.is_open = true;
    }

    /// A line of an instance that is not executed came.
    fn hold_entry(&mut self, entry: Entry) -> Result<(), Memory>
        requires { self.old.next.line < 2 ^ 63 }
        ensures { OnOk result (HoldsEntry self.old entry self.new) }
    {
        self.batch.push(entry)?;
        self.batch_places.push(self.next)?;
        self.pass_line();
        Ok(())
    }

    /// A line of an instance came.
    fn take_entry(&mut self, executor: &Executor, entry: Entry) -> Result<(), Memory>
        requires held { IsHeld executor.now self.old }
        requires next { self.old.next.line < 2 ^ 63 }
        ensures held { OnOk result (IsHeld executor.now self.new) }
        ensures joined { OnOk result (view_of executor.now self.new
            ≡ joined (view_of executor.now self.old) entry) }
        ensures counted { OnOk result (self.new.next ≡ next_line self.old.next) }
    {
        if executor.is_done(entry.id()) {
            drop(entry);
            self.pass_line();
            return Ok(());
        }
        self.hold_entry(entry)?;
        Ok(())
    }

    /// Takes what was read of a line that is not blank. It ends no batch.
    fn take_read(&mut self, executor: &Executor, read: Result<Line, LineFault>) -> Result<(), Fault>
        requires held { IsHeld executor.now self.old }
        requires next { self.old.next.line < 2 ^ 63 }
        ensures held { OnOk result (IsHeld executor.now self.new) }
        ensures taken { OnOk result ((line : List ℕ) → IsReadOf line read → BatchGoesOn line
            (view_of executor.now self.old) (view_of executor.now self.new)) }
        ensures counted { OnOk result (self.new.next ≡ next_line self.old.next) }
        ensures refused { IfErr result (λ fault. (line : List ℕ) → IsReadOf line read
            → RefusesText line self.old.next fault) }
    {
        match read {
            Ok(Line::Entry(entry)) => self.take_entry(executor, entry)?,
            Ok(Line::Blank) => self.pass_line(),
            Err(LineFault::Memory) => return Err(Fault::Memory),
            Err(LineFault::Bad(why)) => {
                return Err(Fault::BadLine {
                    place: self.next,
                    why,
                });
            }
        }
        Ok(())
    }

    /// Takes a line that is not blank, without its line feed. It ends no batch.
    pub(crate) fn take_line(
        &mut self,
        alloc: Global,
        reader: &mut LineReader,
        executor: &Executor,
        line: &[u8],
    ) -> Result<(), Fault>
        requires held { IsHeld executor.now self.old }
        requires next { self.old.next.line < 2 ^ 63 }
        ensures held { OnOk result (IsHeld executor.now self.new) }
        ensures taken { OnOk result
            (BatchGoesOn line.now (view_of executor.now self.old) (view_of executor.now self.new)) }
        ensures counted { OnOk result (self.new.next ≡ next_line self.old.next) }
        ensures refused { IfErr result (RefusesText line.now self.old.next) }
    {
        let read = reader.read(alloc, line);
        self.take_read(executor, read)
    }

    /// Takes the lines before the first one that ends a batch. Returns the bytes after them.
    pub(crate) fn take_lines<'a>(
        &mut self,
        alloc: Global,
        reader: &mut LineReader,
        ahead: &mut LinesAhead<'_>,
        executor: &Executor,
        bytes: &'a [u8],
        each: bool,
    ) -> Result<&'a [u8], Fault>
        requires held { IsHeld executor.now self.old }
        requires lines { self.old.next.line + length bytes.now < 2 ^ 63 }
        ensures held { IfOk result (λ rest. IsHeld executor.now self.new) }
        ensures taken { IfOk result (λ rest. HoldsBytes each (view_of executor.now self.old)
            bytes.now (view_of executor.now self.new) rest.now) }
        ensures counted { IfOk result (λ rest. self.new.next.line + length rest.now
            ≤ self.old.next.line + length bytes.now) }
        ensures fewer { IfOk result (λ rest. length rest.now ≤ length bytes.now) }
        ensures refused { IfErr result (λ fault. (was : Option (List ℕ)) → StopsAmong each
            (view_of executor.now self.old) (lines_of bytes.now) fault [] was was) }
        ensures unwritten { IfErr result (λ fault. fault ≢ Fault.Write) }
    {
        let mut rest = bytes;
        'lines: while !rest.is_empty() {
            let (line, more) = cut_line(rest);
            if each || is_blank_line(line) {
                return Ok(rest);
            }
            let read = ahead.read(alloc, reader, line);
            self.take_read(executor, read)?;
            rest = more;
        }
        Ok(rest)
    }
}
