//! Explains why an input could not be read, or is too long.
use crate::inputs::{Input, Inputs, Origin, Role};
use epx_bad_lines::{made, show_text};
use epx_types::Memory;
use epx_types::limits::{MAX_LOG_BYTES, MAX_LOGS};
use std::alloc::Global;
use std::fs;
use std::io::{self, Error, ErrorKind, Read};
use std::rt::Files;

/// Opens a file and reads its first bytes.
fn try_to_read<R: Files>(rt: &R, path: &str) -> io::Result<usize> {
    let mut file = fs::open(rt, path)?;
    let mut part = [0; 512];
    file.read(&mut part)
}

/// Why a file cannot be opened or read, in words of this program for the usual errors.
fn reason_of(alloc: Global, error: &Error) -> Result<String, Memory> {
    let reason = match error.kind() {
        ErrorKind::NotFound => "there is no such file",
        ErrorKind::PermissionDenied => "there is no permission to read it",
        ErrorKind::IsADirectory => "it is a folder",
        _ => return made(format!(in alloc; "{error}")),
    };
    made(String::from_str(alloc, reason))
}

/// Why the file at a path is not read.
fn explain_path<R: Files>(rt: &R, alloc: Global, path: &str) -> Result<String, Memory> {
    let metadata = match fs::metadata(rt, path) {
        Ok(metadata) => metadata,
        Err(error) => return reason_of(alloc, &error),
    };
    if metadata.is_dir() {
        return made(String::from_str(alloc, "it is a folder"));
    }
    if !metadata.is_file() {
        return made(String::from_str(alloc, "it is a pipe or a device, which failed"));
    }
    match try_to_read(rt, path) {
        Err(error) => reason_of(alloc, &error),
        Ok(_) => made(String::from_str(alloc, "it failed while it was read, and can be read now")),
    }
}

/// Explains that an input could not be read.
pub(crate) fn explain_read<R: Files>(
    rt: &R,
    alloc: Global,
    input: Input<'_>,
) -> Result<String, Memory> {
    let name = input.name(alloc)?;
    match input.origin {
        Origin::File(path) => {
            let reason = explain_path(rt, alloc, path)?;
            made(format!(in alloc; "{name}; {reason}"))
        }
        Origin::StandardInput => made(format!(in alloc; "{name}; is it closed, or a folder?")),
        Origin::Unnamed => Ok(name),
    }
}

/// How an input that is too long can be cut. The other inputs cannot.
fn explain_cut(alloc: Global, input: Input<'_>) -> Result<String, Memory> {
    match (input.role, input.origin) {
        (Role::Log(_), Origin::File(path)) => {
            let path = show_text(alloc, path)?;
            made(format!(in alloc; "; split -C 64M {path} cuts it at line feeds into several logs"))
        }
        (Role::Log(_), _) => {
            made(String::from_str(
                alloc,
                "; split -C 64M - PREFIX cuts it at line feeds into several logs",
            ))
        }
        _ => Ok(String::new(alloc)),
    }
}

/// The length of an input that is a file.
fn file_length<R: Files>(rt: &R, input: Input<'_>) -> Option<u64> {
    let Origin::File(path) = input.origin else {
        return None;
    };
    match fs::metadata(rt, path) {
        Ok(metadata) if metadata.is_file() => Some(metadata.len()),
        _ => None,
    }
}

/// Explains that an input is too long.
pub(crate) fn explain_length<R: Files>(
    rt: &R,
    alloc: Global,
    input: Input<'_>,
) -> Result<String, Memory> {
    let name = input.name(alloc)?;
    let cut = explain_cut(alloc, input)?;
    match file_length(rt, input) {
        Some(length) => {
            made(format!(in alloc;
                "{name}; it has {length} bytes, and at most {MAX_LOG_BYTES} are allowed{cut}"
            ))
        }
        None => {
            made(format!(in alloc; "{name}; at most {MAX_LOG_BYTES} bytes are allowed{cut}"))
        }
    }
}

/// Explains that there are too many logs.
pub(crate) fn explain_log_count(alloc: Global, inputs: &Inputs<'_>) -> Result<String, Memory> {
    let count = inputs.count_logs();
    made(format!(in alloc;
        "{count} logs are named, and at most {MAX_LOGS} are allowed; join some that end with a \
line feed: cat a b > c; or run a part, and epx resume over its report takes the rest in parts"
    ))
}
