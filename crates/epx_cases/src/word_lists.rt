//! The lists of words that `epx` is run with.

use crate::line::add_line;
use epx_program::StreamKind;
use std::alloc::Global;
use std::io::{self, ErrorKind};

/// The calls of a file, one a line. Its lines may repeat a text, as those of scripts do.
pub(crate) fn calls_of(alloc: Global, file: &str) -> io::Result<String> {
    let mut text = Vec::new(alloc);
    for line in file.lines() {
        if !add_line(alloc, &mut text, line)? {
            return Err(io::Error::from(ErrorKind::InvalidData));
        }
    }
    String::from_utf8(text).map_err(|_| io::Error::from(ErrorKind::InvalidData))
}

/// The words of a call. A space separates two of them, so that an empty word is between two spaces.
pub(crate) fn words_of(alloc: Global, call: &str) -> io::Result<Vec<&str>> {
    let mut words = Vec::new(alloc);
    for word in call.split(' ') {
        words.push(word)?;
    }
    Ok(words)
}

/// Lists of words that `epx` is run with while a log is its input, and what the input is.
pub(crate) fn lists_with_input() -> [(&'static [&'static str], StreamKind); 8] {
    [
        (&["epx", "run", "apart.jsonl", "-", "-"], StreamKind::Other),
        (&["epx", "-"], StreamKind::Other),
        (&["epx"], StreamKind::Terminal),
        (&["epx", "run"], StreamKind::Other),
        (&["epx", "run", "-"], StreamKind::Other),
        (&["epx", "check", "--explain", "-"], StreamKind::Other),
        (&["epx", "follow"], StreamKind::Terminal),
        (&["epx", "follow", "--each", "-"], StreamKind::Other),
    ]
}
