//! Reads a base with several threads.
ghost use Rattle.std.specs.Prelude.{◌≡◌, ◌≤◌, ◌^◌, ◌∷◌, ◌++◌, [], ℕ, List, Some, true, length};
ghost use Rattle.std.specs.Prelude.{flat_map, IfOk, IfErr};
ghost use Rattle.epx_lines.specs.Lines.{lines_of};
ghost use Rattle.epx_report.specs.Bases.{IsBase, IsBaseFault};
ghost use Rattle.epx_report.specs.Forms.{base_line_of};
ghost use Rattle.epx_report.specs.declared.from_value.BaseLine.{BaseLine};
ghost use Rattle.epx_report.specs.declared.from_value.BaseLine.TheVariants as said;
ghost use Rattle.epx_report.specs.inner.LinesByKind.{with_all};

use crate::base::{Base, BaseFault, read_base};
use crate::from_value::{BaseLine, Counts};
use crate::line_parts::{Unread, read_pieces};
use crate::line_pieces::cut_pieces;
use crate::parts::Parts;
use crate::read::BaseLineReader;
use epx_lines::cut_line;
use epx_types::{Memory, Plan};
use std::alloc::Global;
use std::thread::Threads;

/// A base of more bytes than this is read line by line.
const MAX_BYTES: usize = 1 << 40;

/// About the bytes of a line. The lines of a piece are about as many as the plan's items.
const LINE_BYTES: usize = 32;

/// The counts of the first line, and the bytes after it.
fn read_header(alloc: Global, bytes: &[u8]) -> Result<(Counts, &[u8]), Unread>
    ensures header { IfOk result (λ read. (line : List ℕ)
        × (lines_of bytes.now ≡ line ∷ lines_of read.1.now)
        × (base_line_of line ≡ Some (said.Header read.0))) }
    ensures rest { IfOk result (λ read. length read.1.now ≤ length bytes.now) }
{
    if bytes.is_empty() {
        return Err(Unread);
    }
    let (line, rest) = cut_line(bytes);
    match BaseLineReader::new(alloc).read(alloc, line)? {
        Some(BaseLine::Header(counts)) => Ok((counts, rest)),
        _ => Err(Unread),
    }
}

/// Takes the lines of one more part. False if one of them does not follow.
fn take_part(parts: &mut Parts, lines: Vec<BaseLine>) -> Result<bool, Memory>
    ensures { IfOk result (λ follow. follow ≡ true → (more : List BaseLine)
        → with_all parts.old (lines.items ++ more) ≡ with_all parts.new more) }
{
    for line in lines {
        if !parts.take(line)? {
            return Ok(false);
        }
    }
    Ok(true)
}

/// The lines after the header, by kind.
fn parts_of(alloc: Global, counts: Counts, lines: Vec<Vec<BaseLine>>) -> Result<Parts, Unread>
    ensures { IfOk result (λ parts. with_all
        (record { counts = counts; done = []; replied = []; waiting = []; stored = [] })
        (flat_map (λ part. part.items) lines.items) ≡ Some parts) }
{
    let mut parts = Parts::new(alloc, counts);
    for part in lines {
        if !take_part(&mut parts, part)? {
            return Err(Unread);
        }
    }
    Ok(parts)
}

/// The base, if the bytes are one. The plan's workers read the lines.
fn read_whole<R: Threads + Sync>(
    rt: &R,
    alloc: Global,
    bytes: &[u8],
    plan: Plan,
) -> Result<Base, Unread>
    requires { length bytes.now ≤ 2 ^ 40 }
    ensures { IfOk result (λ b. IsBase bytes.now b.done b.stored) }
{
    let (counts, rest) = read_header(alloc, bytes)?;
    let pieces = cut_pieces(alloc, rest, plan.cut() * LINE_BYTES)?;
    let lines = read_pieces(rt, alloc, &pieces, plan)?;
    parts_of(alloc, counts, lines)?.into_base(rt, alloc, plan)
}

/// Reads an earlier report as a base: the done instances and the store. The plan's workers read
/// the lines. If they are no base, or there is too little memory for what all lines say,
/// `read_base` reads them again, one after another.
pub fn read_base_by<R: Threads + Sync>(
    rt: &R,
    alloc: Global,
    bytes: &[u8],
    plan: Plan,
) -> Result<Base, BaseFault>
    ensures base { IfOk result (λ b. IsBase bytes.now b.done b.stored) }
    ensures bad { IfErr result (λ f. IsBaseFault bytes.now f) }
{
    if bytes.len() <= MAX_BYTES {
        if let Ok(base) = read_whole(rt, alloc, bytes, plan) {
            return Ok(base);
        }
    }
    read_base(alloc, bytes)
}
