//! Words with one bit for each source of a batch.
ghost use Rattle.std.specs.Prelude.{◌≡◌, ◌<◌, ◌≤◌, length, All, IfOk};
ghost use Rattle.epx_audit.specs.inner.SourceBits.{has_bit, AreSourceMarks};

use epx_types::Memory;
use std::alloc::Global;

/// The number of sources of a word.
pub(crate) const SOURCES: usize = 64;

/// For each slot, the sources that have it. `slots` has the slot of each source.
pub(crate) fn source_marks(alloc: Global, len: usize, slots: &[usize]) -> Result<Vec<u64>, Memory>
    requires few { length slots.now ≤ 64 }
    requires in_range { All (λ s. s < len) slots.now }
    ensures len { IfOk result (λ words. length words.items ≡ len) }
    ensures marks { IfOk result (λ words. AreSourceMarks slots.now words.items) }
{
    let mut words = vec![in alloc; 0; len]?;
    for bit in 0..slots.len() {
        words[slots[bit]] |= 1u64 << bit;
    }
    Ok(words)
}

/// Whether a word has the source with this number.
pub(crate) fn has_bit(word: u64, bit: usize) -> bool
    requires { bit < 64 }
    ensures { result ≡ has_bit bit word }
{
    word >> bit & 1 == 1
}
