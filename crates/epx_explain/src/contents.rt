//! The bytes of an input: those that were kept, or those that are read again.
use crate::inputs::{Input, Inputs, Origin};
use epx_devices::{PathSource, read_log};
use epx_types::{Fault, Memory};
use std::alloc::Global;
use std::fs;
use std::rt::Files;

/// What an input holds.
#[derive(Drop)]
pub enum Contents<'a> {
    /// These bytes were kept while it was read.
    Kept(&'a [u8]),
    /// It holds these bytes now.
    Read(Vec<u8>),
    /// It was not read again, for this reason.
    Unread(&'static str),
}

impl<'a> Contents<'a> {
    /// The bytes, or the reason why there are none.
    pub fn bytes(&self) -> Result<&[u8], &'static str> {
        match self {
            Contents::Kept(bytes) => Ok(*bytes),
            Contents::Read(bytes) => Ok(bytes.as_slice()),
            Contents::Unread(reason) => Err(*reason),
        }
    }
}

/// Why a path does not lead to a file that can be read again. A pipe can not: its bytes are gone,
/// and to open it might wait forever.
fn reason_against<R: Files>(rt: &R, path: &str) -> Option<&'static str> {
    match fs::metadata(rt, path) {
        Ok(metadata) if metadata.is_file() => None,
        Ok(_) => Some("is a pipe or a device, and cannot be read again"),
        Err(_) => Some("cannot be read now"),
    }
}

/// What the file at a path holds now, or why it is not read.
fn read_file<'a, R: Files>(rt: &R, alloc: Global, path: &str) -> Result<Contents<'a>, Memory> {
    if let Some(reason) = reason_against(rt, path) {
        return Ok(Contents::Unread(reason));
    }
    let mut source = PathSource::new(rt, path);
    match read_log(alloc, 0, &mut source) {
        Ok(bytes) => Ok(Contents::Read(bytes)),
        Err(Fault::Memory) => Err(Memory),
        Err(Fault::LogTooLong { .. }) => Ok(Contents::Unread("is longer now")),
        Err(_) => Ok(Contents::Unread("cannot be read now")),
    }
}

/// The bytes that were kept of an input. If there are none, reads it again, if it is a file.
pub(crate) fn read_again<'a, R: Files>(
    rt: &R,
    alloc: Global,
    input: Input<'a>,
) -> Result<Contents<'a>, Memory> {
    if let Some(bytes) = input.kept {
        return Ok(Contents::Kept(bytes));
    }
    match input.origin {
        Origin::File(path) => read_file(rt, alloc, path),
        Origin::StandardInput => Ok(Contents::Unread("cannot be read again")),
        Origin::Unnamed => Ok(Contents::Unread("cannot be read")),
    }
}

/// The bytes of the input besides the logs: those that were kept, or those that the file holds now.
pub fn read_first_again<'a, R: Files>(
    rt: &R,
    alloc: Global,
    inputs: &Inputs<'a>,
) -> Result<Contents<'a>, Memory> {
    match inputs.first_input() {
        Some(input) => read_again(rt, alloc, input),
        None => Ok(Contents::Unread("is not named")),
    }
}
