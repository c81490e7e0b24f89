//! Cuts logs into lines, reads lines and writes them. `specs/` defines what a line means and how
//! an entry is written.
#![tactic(auto)]

mod cut;
mod deps;
mod digits;
mod from_tokens;
mod laws;
mod ops;
mod read;
mod status;
mod tokens;
mod write;

pub use cut::{cut_line, cut_lines};
pub use deps::{read_id, read_id_parts, read_number};
use epx_types::{Entry, Memory, Why};
pub use laws::{lines_are_one, lines_make_up_the_bytes};
pub use ops::{read_key, read_value_or_null};
pub use read::{LineReader, MAX_LINE_BYTES, is_blank_line, read_json, read_line};
pub use tokens::{
    take_id_parts, take_key, take_number, take_replica, take_signed, take_text, take_value_or_null,
};
pub use write::write_line;

/// What a line of a log means.
#[derive(Debug, Drop)]
pub enum Line {
    /// No instance: the line is empty, has only spaces, tabs and carriage returns, or is an
    /// instance that is not committed yet.
    Blank,
    /// A committed instance.
    Entry(Entry),
}

/// Why a line was not read.
#[derive(Clone, Copy, Debug, PartialEq, Eq)]
pub enum LineFault {
    /// Out of memory.
    Memory,
    /// The line is neither blank nor an instance. Has the first reason, in the order of `Why`.
    Bad(Why),
}

impl From<Memory> for LineFault {
    ghost use Rattle.std.specs.Prelude.{◌≡◌};
    ghost use Rattle.epx_lines.specs.declared.LineFault.TheVariants as fault;

    ghost from_gives = { λ _ f. f ≡ fault.Memory };

    fn from(_memory: Memory) -> LineFault {
        LineFault::Memory
    }
}
