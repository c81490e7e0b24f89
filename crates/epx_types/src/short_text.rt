//! Short texts, stored in place.
ghost use Rattle.std.specs.Prelude.{◌≡◌, IfSome, take};
ghost use Rattle.epx_types.specs.KeyHeads.{AreBytes, head_of};
ghost use Rattle.epx_types.specs.ShortTexts.{IsShortText};

use crate::key::MAX_SHORT_KEY_BYTES;
use std::str;

/// A text of at most 22 bytes. With its length and the tag of `KeyText` it takes 24 bytes.
#[derive(Clone, Copy)]
pub(crate) struct ShortText {
    len: u8,
    /// The text, and zeros. So the head is read without a look at the length.
    bytes: [u8; MAX_SHORT_KEY_BYTES],
    ghost fits: { IsShortText len bytes },
}

impl ShortText {
    /// None if the text is longer than 22 bytes.
    pub(crate) fn new(text: &str) -> Option<ShortText>
        ensures { IfSome result (λ t. take t.len t.bytes ≡ text.now) }
    {
        let source = text.as_bytes();
        if source.len() > MAX_SHORT_KEY_BYTES {
            return None;
        }
        let mut bytes = [0; MAX_SHORT_KEY_BYTES];
        bytes[..source.len()].copy_from_slice(source);
        Some(ShortText {
            len: source.len() as u8,
            bytes,
        })
    }

    /// The text, without the zeros after it.
    pub(crate) fn as_str(&self) -> &str
        ensures { result.now ≡ take self.now.len self.now.bytes }
    {
        unsafe { str::from_utf8_unchecked(&self.bytes[..self.len as usize]) }
    }

    /// The first eight bytes as a big-endian number, padded with zeros.
    pub(crate) fn head(&self) -> u64
        ensures head { result ≡ head_of (take self.now.len self.now.bytes) }
        ensures bytes { AreBytes (take self.now.len self.now.bytes) }
    {
        let b = &self.bytes;
        u64::from_be_bytes([b[0], b[1], b[2], b[3], b[4], b[5], b[6], b[7]])
    }
}
