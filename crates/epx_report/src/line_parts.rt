//! Reads the lines of a base with several threads.
ghost use Rattle.std.specs.Prelude.{◌≡◌, ◌≤◌, ◌<◌, ◌^◌, length, slice_get, flat_map};
ghost use Rattle.std.specs.Prelude.{Some, IfOk, IfSome};
ghost use Rattle.epx_lines.specs.Lines.{lines_of};
ghost use Rattle.epx_report.specs.Bases.{Say};

use crate::from_value::BaseLine;
use crate::read::BaseLineReader;
use epx_claims::{FreeGate, claimed_map};
use epx_lines::cut_line;
use epx_types::{Memory, Plan};
use std::alloc::Global;
use std::thread::Threads;

/// Not all lines are read: one is no line of a base, or there was too little memory.
#[derive(Drop)]
pub(crate) struct Unread;

impl From<Memory> for Unread {
    ghost from_gives = { λ _ _. Unit {0} };

    fn from(_memory: Memory) -> Unread {
        Unread
    }
}

/// What each line says. None if one is no line of a base.
fn read_lines(alloc: Global, bytes: &[u8]) -> Result<Option<Vec<BaseLine>>, Memory>
    ensures { IfOk result (λ read. IfSome read (λ said. Say (lines_of bytes.now) said.items)) }
{
    let mut reader = BaseLineReader::new(alloc);
    let mut said = Vec::new(alloc);
    let mut rest = bytes;
    while !rest.is_empty() {
        let (next, more) = cut_line(rest);
        let Some(line) = reader.read(alloc, next)? else {
            return Ok(None);
        };
        said.push(line)?;
        rest = more;
    }
    Ok(Some(said))
}

/// What each line of one of the pieces says.
fn read_piece(alloc: Global, pieces: &[&[u8]], piece: usize) -> Result<Vec<BaseLine>, Unread>
    requires { piece < length pieces.now }
    ensures { IfOk result (λ said. (bytes : _) → slice_get pieces.now piece ≡ Some bytes
        → Say (lines_of bytes.now) said.items) }
{
    match read_lines(alloc, pieces[piece])? {
        Some(said) => Ok(said),
        None => Err(Unread),
    }
}

/// What the lines of each piece say. The plan's workers read the pieces.
pub(crate) fn read_pieces<R: Threads + Sync>(
    rt: &R,
    alloc: Global,
    pieces: &[&[u8]],
    plan: Plan,
) -> Result<Vec<Vec<BaseLine>>, Unread>
    requires { length pieces.now ≤ 2 ^ 40 }
    ensures { IfOk result (λ parts. Say (flat_map (λ piece. lines_of piece.now) pieces.now)
        (flat_map (λ part. part.items) parts.items)) }
{
    claimed_map(rt, alloc, pieces.len(), plan, &FreeGate, |piece| {
        read_piece(alloc, pieces, piece)
    })
}
