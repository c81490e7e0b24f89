//! Cuts a log into lines.
ghost use Rattle.std.specs.Prelude.{◌≡◌, ◌<◌, ◌∷◌, length, map, IfOk};
ghost use Rattle.epx_lines.specs.Lines.{lines_of};

use epx_types::Memory;
use memchr::memchr;
use std::alloc::Global;

/// Splits a nonempty log after its first line. Returns the line without its line feed, and the
/// bytes after the line feed.
pub fn cut_line(bytes: &[u8]) -> (&[u8], &[u8])
    requires { 0 < length bytes.now }
    ensures lines { lines_of bytes.now ≡ result.0.now ∷ lines_of result.1.now }
    ensures rest { length result.1.now < length bytes.now }
{
    match memchr(b'\n', bytes) {
        Some(end) => {
            let (line, more) = bytes.split_at(end);
            (line, &more[1..])
        }
        None => bytes.split_at(bytes.len()),
    }
}

/// Returns the lines of a log in order, without their line feeds. The last line may lack its line
/// feed. A line feed at the end of the log begins no further line. The lines are borrowed from the
/// bytes.
pub fn cut_lines(alloc: Global, bytes: &[u8]) -> Result<Vec<&[u8]>, Memory>
    ensures { IfOk result (λ v. map (λ l. l.now) v.items ≡ lines_of bytes.now) }
{
    let mut lines = Vec::new(alloc);
    let mut rest = bytes;
    while !rest.is_empty() {
        let (line, more) = cut_line(rest);
        lines.push(line)?;
        rest = more;
    }
    Ok(lines)
}
