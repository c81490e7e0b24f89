//! Reads a base.
ghost use Rattle.std.specs.Prelude.{◌≡◌, IfOk, IfErr};
ghost use Rattle.epx_report.specs.Bases.{IsBase, IsBaseFault};
ghost use Rattle.epx_types.specs.Ids.{IsRising};

use crate::progress::Progress;
use crate::read::BaseLineReader;
use epx_lines::cut_line;
use epx_store::Store;
use epx_types::{Fault, Id, Memory};
use std::alloc::Global;
use std::marker::Model;

/// A base: the part of an earlier report from which a run can resume. Contracts see it as the done
/// instances by rising Id and the contents of the store.
#[derive(Debug, Drop)]
pub struct Base {
    done: Vec<Id>,
    store: Store,
}

impl Model for Base {
    ghost use Rattle.epx_report.specs.between.DoneAndStored.{DoneAndStored, done_and_stored_code};
    ghost use Rattle.epx_types.specs.Ids.{IsRising};

    ghost Value = { DoneAndStored };

    ghost coded = { done_and_stored_code };

    ghost view = { λ b. record { done = b.done.items; stored = b.store } };

    ghost invariant = { λ b. IsRising b.done.items };
}

impl Base {
    /// Makes a base of the instances that are done, by rising Id, and the store.
    pub(crate) fn new(done: Vec<Id>, store: Store) -> Base
        requires { IsRising done.items }
        ensures done { result.done ≡ done.items }
        ensures stored { result.stored ≡ store }
    {
        Base { done, store }
    }

    /// Returns the instances that are done, by rising Id.
    pub fn done(&self) -> &[Id]
        ensures done { result.now ≡ self.now.done }
        ensures rising { IsRising result.now }
    {
        self.done.as_slice()
    }

    /// Returns the instances that are done, by rising Id, and the store.
    pub fn into_parts(self) -> (Vec<Id>, Store)
        ensures done { result.0.items ≡ self.done }
        ensures rising { IsRising result.0.items }
        ensures store { result.1 ≡ self.stored }
    {
        (self.done, self.store)
    }
}

/// Why bytes were not read as a base or as a list.
#[derive(Clone, Copy, Debug, PartialEq, Eq)]
pub enum BaseFault {
    /// Out of memory.
    Memory,
    /// The first line that is not allowed at its position, counted from 1. If the text ends too
    /// early, this is one more than the number of lines.
    Bad { line: usize },
}

impl From<Memory> for BaseFault {
    ghost use Rattle.std.specs.Prelude.{◌≡◌};
    ghost use Rattle.epx_report.specs.declared.base.BaseFault.TheVariants as fault;

    ghost from_gives = { λ _ f. f ≡ fault.Memory };

    fn from(_memory: Memory) -> BaseFault {
        BaseFault::Memory
    }
}

impl From<BaseFault> for Fault {
    ghost use Rattle.std.specs.Prelude.{◌≡◌};
    ghost use Rattle.epx_report.specs.Bases.{fault_of};

    ghost from_gives = { λ base_fault fault. fault ≡ fault_of base_fault };

    fn from(fault: BaseFault) -> Fault {
        match fault {
            BaseFault::Memory => Fault::Memory,
            BaseFault::Bad { line } => Fault::BadBase { line },
        }
    }
}

/// Reads an earlier report as a base: the done instances and the store. Takes O(n log n) time for
/// n bytes. Returns `Bad` with the first line that is out of place, and `Memory` only if an
/// allocation fails.
pub fn read_base(alloc: Global, bytes: &[u8]) -> Result<Base, BaseFault>
    ensures base { IfOk result (λ b. IsBase bytes.now b.done b.stored) }
    ensures bad { IfErr result (λ f. IsBaseFault bytes.now f) }
{
    let mut progress = Progress::new(alloc);
    let mut reader = BaseLineReader::new(alloc);
    let mut rest = bytes;
    let mut line = 1;
    while !rest.is_empty() {
        let (next, more) = cut_line(rest);
        if !progress.take_line(alloc, &mut reader, next)? {
            return Err(BaseFault::Bad { line });
        }
        rest = more;
        line += 1;
    }
    if !progress.is_complete() {
        return Err(BaseFault::Bad { line });
    }
    Ok(progress.into_base(alloc)?)
}
