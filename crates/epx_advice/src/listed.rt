//! The instances of a list, each with its position and its line.
use epx_bad_lines::made;
use epx_lines::{cut_lines, is_blank_line};
use epx_report::{BaseFault, read_list};
use epx_types::{Id, Memory};
use std::alloc::Global;
use std::fmt;

/// An instance of a list.
#[derive(Clone, Copy)]
pub(crate) struct Listed {
    pub id: Id,
    /// Counted from 0. Blank lines have no position.
    pub position: usize,
    /// Counted from 1, as editors do.
    pub line: usize,
}

impl fmt::Display for Listed {
    fn fmt<W: fmt::Write>(&self, f: &mut fmt::Formatter<W>) -> fmt::Result {
        let position = self.position;
        let line = self.line;
        write!(f, "position {position}, line {line}")
    }
}

impl Listed {
    /// Says what the list has where. It is the beginning of an explanation.
    pub fn show(&self, alloc: Global) -> Result<String, Memory> {
        let Listed { id, position, line } = *self;
        made(format!(in alloc; "LIST has {id} at position {position} (from 0), line {line}"))
    }
}

/// The number of each line that is not blank.
fn line_numbers(alloc: Global, list: &[u8]) -> Result<Vec<usize>, Memory> {
    let lines = cut_lines(alloc, list)?;
    let mut numbers = Vec::new(alloc);
    for (index, line) in lines.iter().enumerate() {
        if !is_blank_line(line) {
            numbers.push(index.saturating_add(1))?;
        }
    }
    Ok(numbers)
}

/// The instances of a list. None if the bytes are no list.
pub(crate) fn read_listed(alloc: Global, list: &[u8]) -> Result<Option<Vec<Listed>>, Memory> {
    let ids = match read_list(alloc, list) {
        Ok(ids) => ids,
        Err(BaseFault::Memory) => return Err(Memory),
        Err(BaseFault::Bad { .. }) => return Ok(None),
    };
    let lines = line_numbers(alloc, list)?;
    let mut listed = Vec::with_capacity(alloc, ids.len())?;
    for (position, (id, line)) in ids.iter().zip(lines.iter()).enumerate() {
        listed.push(Listed {
            id: *id,
            position,
            line: *line,
        })?;
    }
    Ok(Some(listed))
}
