//! Faults: why a run has no answer.
ghost use Rattle.std.specs.Prelude.{◌≡◌, IfOk, string_bytes};
ghost use Rattle.epx_types.specs.Faults.{fault_number, fault_status, fault_text};

use crate::id::Id;
use crate::memory::Memory;
use crate::place::Place;
use std::alloc::Global;
use std::fmt;

/// Why a line is bad. The first reason that applies, in this order, is reported.
#[derive(Clone, Copy, Debug, PartialEq, Eq)]
pub enum Why {
    /// The line has more than 65,536 bytes and is not blank.
    TooLong,
    /// The line is not a JSON value, or is nested too deep.
    NotJson,
    /// The JSON value is not an object.
    NotObject,
    /// `r` is missing or is not an unsigned 8-bit integer.
    Replica,
    /// `i` is missing or is not an unsigned 64-bit integer.
    Number,
    /// `seq` is missing or is not an unsigned 64-bit integer.
    Seq,
    /// `status` is there and is none of the four texts.
    Status,
    /// `deps` is missing or is not a list of at most 256 Ids.
    Deps,
    /// `ops` is missing or is not a list of at most 64 operations.
    Ops,
}

impl fmt::Display for Why {
    ghost use Rattle.std.specs.Prelude.{Some};
    ghost use Rattle.epx_types.specs.Faults.{why_text};

    ghost output = { λ why. Some (why_text why) };

    fn fmt<W: fmt::Write>(&self, f: &mut fmt::Formatter<W>) -> fmt::Result {
        match self {
            Why::TooLong => write!(f, "TooLong"),
            Why::NotJson => write!(f, "NotJson"),
            Why::NotObject => write!(f, "NotObject"),
            Why::Replica => write!(f, "Replica"),
            Why::Number => write!(f, "Number"),
            Why::Seq => write!(f, "Seq"),
            Why::Status => write!(f, "Status"),
            Why::Deps => write!(f, "Deps"),
            Why::Ops => write!(f, "Ops"),
        }
    }
}

/// Why a run has no answer. The number of each fault is that of its text.
#[derive(Clone, Copy, Debug, PartialEq, Eq)]
pub enum Fault {
    /// An allocation failed.
    Memory,
    /// There are more than 64 logs.
    TooManyLogs,
    /// The log has more than 67,108,864 bytes.
    LogTooLong { log: usize },
    /// The line is bad, for the first reason that applies.
    BadLine { place: Place, why: Why },
    /// The logs commit more than 1,048,576 distinct instances.
    TooManyInstances,
    /// The lines at two places commit the same instance differently.
    Disagree { id: Id, first: Place, second: Place },
    /// A read of the log failed.
    Read { log: usize },
    /// A write or a flush of the answer failed.
    Write,
    /// The bytes are not a base: this line is not allowed at its position, or it is missing at the
    /// end.
    BadBase { line: usize },
}

impl From<Memory> for Fault {
    ghost use Rattle.epx_types.specs.Faults.{out_of_memory};

    ghost from_gives = { λ _ fault. fault ≡ out_of_memory };

    fn from(_memory: Memory) -> Fault {
        Fault::Memory
    }
}

impl fmt::Display for Fault {
    ghost use Rattle.std.specs.Prelude.{Some};

    ghost output = { λ fault. Some (fault_text fault) };

    fn fmt<W: fmt::Write>(&self, f: &mut fmt::Formatter<W>) -> fmt::Result {
        match self {
            Fault::Memory => write!(f, "epx: fault 1: out of memory"),
            Fault::TooManyLogs => write!(f, "epx: fault 2: more than 64 logs"),
            Fault::LogTooLong { log } => {
                write!(f, "epx: fault 3: log {log} is longer than 67108864 bytes")
            }
            Fault::BadLine { place, why } => write!(f, "epx: fault 4: {place}: {why}"),
            Fault::TooManyInstances => write!(f, "epx: fault 5: more than 1048576 instances"),
            Fault::Disagree { id, first, second } => {
                write!(
                    f,
                    "epx: fault 6: instance {id} differs between {first} and {second}"
                )
            }
            Fault::Read { log } => write!(f, "epx: fault 7: log {log} can not be read"),
            Fault::Write => write!(f, "epx: fault 8: the answer can not be written"),
            Fault::BadBase { line } => {
                write!(f, "epx: fault 9: base line {line} is not as it must be")
            }
        }
    }
}

impl Fault {
    /// The number in the fault's text, 1 to 9.
    pub fn number(&self) -> u8
        ensures { result ≡ fault_number self.now }
    {
        match self {
            Fault::Memory => 1,
            Fault::TooManyLogs => 2,
            Fault::LogTooLong { .. } => 3,
            Fault::BadLine { .. } => 4,
            Fault::TooManyInstances => 5,
            Fault::Disagree { .. } => 6,
            Fault::Read { .. } => 7,
            Fault::Write => 8,
            Fault::BadBase { .. } => 9,
        }
    }

    /// The exit status of a program that ends with this fault: 3 for `Memory`, 4 for `Read` and
    /// `Write`, 1 for the others.
    pub fn status(&self) -> u8
        ensures { result ≡ fault_status self.now }
    {
        match self {
            Fault::Memory => 3,
            Fault::Read { .. } | Fault::Write => 4,
            _ => 1,
        }
    }

    /// The line that the program prints, without its line feed.
    pub fn text(&self, alloc: Global) -> Result<String, Memory>
        ensures { IfOk result (λ text. string_bytes text ≡ fault_text self.now) }
    {
        Ok(self.to_string(alloc)?)
    }
}
