//! Keys of the store.
ghost use Rattle.std.specs.Prelude.{◌≡◌, ◌<◌, IfOk, IfSome};
ghost use Rattle.std.specs.Prelude.{IsSome, ◌↔◌};
ghost use Rattle.epx_types.specs.Keys.{FitsKey};
ghost use Rattle.epx_types.specs.KeyHeads.{AreBytes, head_of};

use crate::key_text::KeyText;
use crate::memory::Memory;
use std::alloc::Global;
use std::cmp::Ordering;
use std::hash::{Hash, Hasher};
use std::marker::Model;

/// A key has at most this many bytes.
pub const MAX_KEY_BYTES: usize = 64;

/// A key of at most this many bytes is copied without an allocation.
pub const MAX_SHORT_KEY_BYTES: usize = 22;

/// A key of the store: a text of 1 to 64 bytes. Keys are ordered by bytes.
#[derive(Debug)]
pub struct Key {
    text: KeyText,
}

impl Drop for Key {
    fn drop(self) {
        let Key { text: _ } = self;
    }
}

impl Model for Key {
    ghost use Rattle.std.specs.Prelude.{◌≡◌, List, ℕ};
    ghost use Rattle.epx_types.specs.Keys.{FitsKey};
    ghost use Rattle.epx_types.specs.KeyTexts.{text_bytes};

    ghost Value = { List ℕ };

    ghost view = { λ k. text_bytes k.text };

    ghost invariant = { λ k. FitsKey (text_bytes k.text) };
}

impl Key {
    /// None if the text is empty or longer than 64 bytes. A short text is not allocated.
    pub fn new(alloc: Global, text: &str) -> Result<Option<Key>, Memory>
        ensures fits { IfOk result (λ o. IsSome o ↔ FitsKey text.now) }
        ensures key { IfOk result (λ o. IfSome o (λ k. k ≡ text.now)) }
    {
        if text.is_empty() || text.len() > MAX_KEY_BYTES {
            return Ok(None);
        }
        let text = KeyText::new(alloc, text)?;
        Ok(Some(Key { text }))
    }

    /// The text of the key, borrowed from it.
    pub fn text(&self) -> &str
        ensures text { result.now ≡ self.now }
        ensures fits { FitsKey self.now }
    {
        self.text.as_str()
    }

    /// The first eight bytes as a big-endian number, padded with zeros. If the heads of two keys
    /// differ, the keys are ordered as their heads.
    pub fn head(&self) -> u64
        ensures head { result ≡ head_of self.now }
        ensures bytes { AreBytes self.now }
    {
        self.text.head()
    }

    /// An equal key. Only a text of more than `MAX_SHORT_KEY_BYTES` bytes is allocated.
    pub fn copy(&self) -> Result<Key, Memory>
        ensures { IfOk result (λ k. k ≡ self.now) }
    {
        let text = self.text.copy()?;
        Ok(Key { text })
    }
}

impl PartialEq for Key {
    ghost use Rattle.std.specs.Prelude.{ℕ};
    ghost use Rattle.std.specs.Ordering.{nat_cmp, eq_by_cmp};
    ghost use Rattle.std.specs.Cmp.Lexicographic.{slice_cmp};
    ghost use Rattle.std.proofs.Common.{rules};
    ghost use Rattle.std.specs.Cmp.Rules.{comparing};

    ghost eq = { eq_by_cmp (slice_cmp nat_cmp) };

    ghost laws = { Prim.search (comparing, rules) };

    fn eq(&self, other: &Key) -> bool {
        self.cmp(other).is_eq()
    }
}

impl Eq for Key {
    ghost use Rattle.std.proofs.Common.{rules};
    ghost use Rattle.std.specs.Cmp.Rules.{comparing};

    ghost laws = { Prim.search (comparing, rules) };
}

impl PartialOrd for Key {
    ghost use Rattle.std.specs.Ordering.{nat_cmp, as_partial_cmp};
    ghost use Rattle.std.specs.Cmp.Lexicographic.{slice_cmp};
    ghost use Rattle.std.proofs.Common.{rules};
    ghost use Rattle.std.specs.Cmp.Rules.{comparing};

    ghost partial_cmp = { as_partial_cmp (slice_cmp nat_cmp) };

    ghost laws = { Prim.search (comparing, rules) };

    fn partial_cmp(&self, other: &Key) -> Option<Ordering> {
        Some(self.cmp(other))
    }
}

impl Ord for Key {
    ghost use Rattle.std.specs.Ordering.{nat_cmp};
    ghost use Rattle.std.specs.Cmp.Lexicographic.{slice_cmp};
    ghost use Rattle.std.proofs.Common.{rules};
    ghost use Rattle.std.specs.Cmp.Rules.{comparing};

    ghost cmp = { slice_cmp nat_cmp };

    ghost total = { Prim.search (comparing, rules) };

    ghost matches_partial_cmp = { Prim.search (comparing, rules) };

    ghost matches_eq = { Prim.search (comparing, rules) };

    fn cmp(&self, other: &Key) -> Ordering {
        let head = self.head();
        let other_head = other.head();
        // Most keys differ in their heads, so most texts need not be compared.
        if head == other_head {
            self.text().cmp(other.text())
        } else {
            head.cmp(&other_head)
        }
    }
}

impl Hash for Key {
    ghost use Rattle.std.specs.Hash as fed;
    ghost use Rattle.std.specs.Ordering.{nat_cmp, is_eq};
    ghost use Rattle.std.specs.Cmp.Lexicographic.{slice_cmp};
    ghost use Rattle.std.proofs.Common.{ap};
    ghost use Rattle.std.proofs.lemmas.Bool.Decides.{Decides-at};
    ghost use Rattle.std.proofs.lemmas.Map.Text.{is_eq-slice_cmp};
    ghost use Rattle.std.proofs.lemmas.Slice.Eq.{bytes_eq-Decides};

    ghost hash_input = { λ k. fed.str k };

    ghost respects_eq = { λ x y same. ap fed.str ((Decides-at (is_eq (slice_cmp nat_cmp x y)) _
        (is_eq-slice_cmp x y) (bytes_eq-Decides x y)).0 same) };

    fn hash<H: Hasher>(&self, state: &mut H) {
        self.text().hash(state);
    }
}
