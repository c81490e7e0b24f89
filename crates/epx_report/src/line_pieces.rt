//! Cuts the bytes of a base into pieces that end where lines end.
ghost use Rattle.std.specs.Prelude.{◌≡◌, ◌≤◌, ◌<◌, ◌++◌, length, flat_map, IfOk};
ghost use Rattle.epx_lines.specs.Lines.{lines_of};

use epx_types::Memory;
use memchr::memchr;
use std::alloc::Global;

/// Splits nonempty bytes after the first line feed that has `size` bytes before it.
fn cut_piece(bytes: &[u8], size: usize) -> (&[u8], &[u8])
    requires { 0 < length bytes.now }
    ensures lines { lines_of bytes.now ≡ lines_of result.0.now ++ lines_of result.1.now }
    ensures rest { length result.1.now < length bytes.now }
{
    if size < bytes.len() {
        let (_, tail) = bytes.split_at(size);
        if let Some(end) = memchr(b'\n', tail) {
            return bytes.split_at(size + end + 1);
        }
    }
    bytes.split_at(bytes.len())
}

/// Pieces of the bytes, in order. Each ends with a line feed and has over `size` bytes; the last
/// one may lack both.
pub(crate) fn cut_pieces(alloc: Global, bytes: &[u8], size: usize) -> Result<Vec<&[u8]>, Memory>
    ensures lines { IfOk result
        (λ pieces. flat_map (λ piece. lines_of piece.now) pieces.items ≡ lines_of bytes.now) }
    ensures few { IfOk result (λ pieces. length pieces.items ≤ length bytes.now) }
{
    let mut pieces = Vec::new(alloc);
    let mut rest = bytes;
    while !rest.is_empty() {
        let (piece, more) = cut_piece(rest, size);
        pieces.push(piece)?;
        rest = more;
    }
    Ok(pieces)
}
