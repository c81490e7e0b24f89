//! Finds a line of an input.
use epx_lines::{cut_line, is_blank_line};

/// A line of an input.
#[derive(Clone, Copy)]
pub struct LogLine<'a> {
    /// The whole input.
    pub log: &'a [u8],
    /// The line without its line feed.
    pub bytes: &'a [u8],
    /// Whether a line feed ends the line.
    pub has_line_feed: bool,
}

/// The line with this number, counted from 1. None if the log ends before it.
pub fn line_at(log: &[u8], number: usize) -> Option<LogLine<'_>> {
    let mut left = number;
    let mut rest = log;
    while !rest.is_empty() {
        let (bytes, more) = cut_line(rest);
        if left <= 1 {
            return Some(LogLine {
                log,
                bytes,
                has_line_feed: bytes.len() < rest.len(),
            });
        }
        left -= 1;
        rest = more;
    }
    None
}

/// The first line that is not blank, without its line feed.
pub fn first_line(input: &[u8]) -> Option<&[u8]> {
    let mut rest = input;
    while !rest.is_empty() {
        let (bytes, more) = cut_line(rest);
        if !is_blank_line(bytes) {
            return Some(bytes);
        }
        rest = more;
    }
    None
}
