//! Long texts, stored behind a box.
ghost use Rattle.std.specs.Prelude.{◌≡◌, ◌<◌, ◌≤◌, slice_index_or, length, IfOk};
ghost use Rattle.epx_types.specs.KeyHeads.{AreBytes, head_of};
ghost use Rattle.epx_types.specs.LongTexts.{IsHeadOf};

use crate::key::MAX_KEY_BYTES;
use crate::memory::Memory;
use arrayvec::ArrayString;
use std::alloc::Global;

/// An allocated text of at most 64 bytes. Its head is stored beside the box, so that most keys are
/// compared without a look behind it.
#[derive(Drop)]
pub(crate) struct LongText {
    head: u64,
    pub(crate) text: Box<ArrayString<MAX_KEY_BYTES>>,
    ghost fits: { IsHeadOf head text.value.bytes },
}

/// The byte at an index, or 0 past the end.
fn byte_at(bytes: &[u8], index: usize) -> u64
    ensures value { result ≡ slice_index_or bytes.now index 0 }
    ensures byte { result < 256 }
{
    if index < bytes.len() {
        bytes[index] as u64
    } else {
        0
    }
}

/// The first eight bytes of a text as a big-endian number, padded with zeros.
fn head_of(text: &str) -> u64
    ensures head { result ≡ head_of text.now }
    ensures bytes { AreBytes text.now }
{
    let bytes = text.as_bytes();
    let high = byte_at(bytes, 0) * 0x100_0000
        + byte_at(bytes, 1) * 0x1_0000
        + byte_at(bytes, 2) * 0x100
        + byte_at(bytes, 3);
    let low = byte_at(bytes, 4) * 0x100_0000
        + byte_at(bytes, 5) * 0x1_0000
        + byte_at(bytes, 6) * 0x100
        + byte_at(bytes, 7);
    high * 0x1_0000_0000 + low
}

impl LongText {
    /// Puts a text behind a box, however short it is, and stores its head.
    pub(crate) fn new(alloc: Global, text: &str) -> Result<LongText, Memory>
        requires { length text.now ≤ 64 }
        ensures { IfOk result (λ t. t.text.value.bytes ≡ text.now) }
    {
        let head = head_of(text);
        let text = ArrayString::from(text).unwrap();
        Ok(LongText {
            head,
            text: Box::new(alloc, text)?,
        })
    }

    /// The text behind the box.
    pub(crate) fn as_str(&self) -> &str
        ensures { result.now ≡ self.now.text.value.bytes }
    {
        self.text.as_str()
    }

    /// The first eight bytes as a big-endian number, padded with zeros.
    pub(crate) fn head(&self) -> u64
        ensures head { result ≡ head_of self.now.text.value.bytes }
        ensures bytes { AreBytes self.now.text.value.bytes }
    {
        self.head
    }

    /// An equal text behind a box of its own.
    pub(crate) fn copy(&self) -> Result<LongText, Memory>
        ensures { IfOk result (λ t. t.text.value.bytes ≡ self.now.text.value.bytes) }
    {
        Ok(LongText {
            head: self.head,
            text: self.text.clone()?,
        })
    }
}
