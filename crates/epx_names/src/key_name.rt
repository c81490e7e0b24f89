//! Names of keys.
ghost use Rattle.std.specs.Prelude.{◌≡◌, ◌↔◌, IfOk, IfSome, IsSome};
ghost use Rattle.epx_types.specs.Keys.{FitsKey};

use arrayvec::ArrayString;
use epx_types::key::MAX_KEY_BYTES;
use epx_types::{Key, Memory};
use std::alloc::Global;

/// The name of a key: a text of 1 to 64 bytes. It is `Copy`, which a `Key` is not.
#[derive(Clone, Copy, Debug, PartialEq, Eq)]
pub struct KeyName {
    pub text: ArrayString<MAX_KEY_BYTES>,
    ghost fits: { FitsKey text.bytes },
}

impl KeyName {
    /// None if the text is empty or longer than 64 bytes.
    pub fn new(text: &str) -> Option<KeyName>
        ensures fits { IsSome result ↔ FitsKey text.now }
        ensures name { IfSome result (λ k. k.text.bytes ≡ text.now) }
    {
        if text.is_empty() || text.len() > MAX_KEY_BYTES {
            return None;
        }
        match ArrayString::from(text) {
            Ok(text) => Some(KeyName { text }),
            Err(_) => None,
        }
    }

    /// The key with this name. A long one is allocated.
    pub fn key(&self, alloc: Global) -> Result<Key, Memory>
        ensures { IfOk result (λ k. k ≡ self.now.text.bytes) }
    {
        let key = Key::new(alloc, self.text.as_str())?;
        Ok(key.unwrap())
    }
}
