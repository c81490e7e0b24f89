//! The text of a key, stored in the key itself if it is short.
ghost use Rattle.std.specs.Prelude.{◌≡◌, ◌≤◌, length, IfOk};
ghost use Rattle.epx_types.specs.KeyHeads.{AreBytes, head_of};
ghost use Rattle.epx_types.specs.KeyTexts.{text_bytes};

use crate::long_text::LongText;
use crate::memory::Memory;
use crate::short_text::ShortText;
use std::alloc::Global;
use std::fmt;

/// A text, short or long.
#[derive(Drop)]
pub(crate) enum KeyText {
    Short(ShortText),
    Long(LongText),
}

impl KeyText {
    /// Stores a text. It is allocated only if it has more than `MAX_SHORT_KEY_BYTES` bytes.
    pub(crate) fn new(alloc: Global, text: &str) -> Result<KeyText, Memory>
        requires { length text.now ≤ 64 }
        ensures { IfOk result (λ t. text_bytes t ≡ text.now) }
    {
        match ShortText::new(text) {
            Some(short) => Ok(KeyText::Short(short)),
            None => Ok(KeyText::Long(LongText::new(alloc, text)?)),
        }
    }

    /// The text, wherever it is stored.
    pub(crate) fn as_str(&self) -> &str
        ensures { result.now ≡ text_bytes self.now }
    {
        match self {
            KeyText::Short(text) => text.as_str(),
            KeyText::Long(text) => text.as_str(),
        }
    }

    /// The first eight bytes as a big-endian number, padded with zeros.
    pub(crate) fn head(&self) -> u64
        ensures head { result ≡ head_of (text_bytes self.now) }
        ensures bytes { AreBytes (text_bytes self.now) }
    {
        match self {
            KeyText::Short(text) => text.head(),
            KeyText::Long(text) => text.head(),
        }
    }

    /// An equal text. Only a long one is allocated.
    pub(crate) fn copy(&self) -> Result<KeyText, Memory>
        ensures { IfOk result (λ t. text_bytes t ≡ text_bytes self.now) }
    {
        match self {
            KeyText::Short(text) => Ok(KeyText::Short(*text)),
            KeyText::Long(text) => Ok(KeyText::Long(text.copy()?)),
        }
    }
}

impl fmt::Debug for KeyText {
    fn fmt<W: fmt::Write>(&self, f: &mut fmt::Formatter<W>) -> fmt::Result {
        fmt::Debug::fmt(&self.as_str(), f)
    }
}
