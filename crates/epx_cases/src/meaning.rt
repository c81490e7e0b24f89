//! The meanings of the lines of logs.
use epx_lines::{Line, LineFault, cut_lines, read_line, write_line};
use epx_types::Memory;
use std::alloc::Global;

/// The meaning of a line: `blank`, its fault, or its instance as `write_line` writes it.
fn meaning(alloc: Global, line: &[u8]) -> Result<String, Memory> {
    match read_line(alloc, line) {
        Ok(Line::Blank) => Ok(String::from_str(alloc, "blank")?),
        Ok(Line::Entry(entry)) => write_line(alloc, &entry),
        Err(LineFault::Bad(why)) => Ok(why.to_string(alloc)?),
        Err(LineFault::Memory) => Err(Memory),
    }
}

/// The meanings of all lines of the logs, one a line.
pub(crate) fn meanings(alloc: Global, logs: &[Vec<u8>]) -> Result<Vec<u8>, Memory> {
    let mut text = Vec::new(alloc);
    for log in logs {
        for line in &cut_lines(alloc, log)? {
            text.extend_from_slice(meaning(alloc, line)?.as_bytes())?;
            text.push(b'\n')?;
        }
    }
    Ok(text)
}
