//! The sources that share doubtful keys with each node.
ghost use Rattle.std.specs.Prelude.{◌≡◌, ◌⊎◌, ◌<◌, length, slice_index, Contains, IsTrue};
ghost use Rattle.std.specs.Prelude.{IsFalse, IfOk};
ghost use Rattle.epx_audit.specs.declared.doubtful_touches.DoubtfulTouch.{DoubtfulTouch};
ghost use Rattle.epx_audit.specs.inner.Batches.{AreSharing};
ghost use Rattle.epx_audit.specs.inner.DoubtfulKeys.{AreInRange};
ghost use Rattle.epx_audit.specs.inner.SourceBits.{AreSourceMarks, HasBitsOf};

use crate::doubtful_touches::DoubtfulTouches;
use epx_types::Memory;
use std::alloc::Global;

/// For each node, the sources that touch one of its doubtful keys, if the node or the source
/// writes the key. `own` has the sources at each node.
pub(crate) fn sharing_marks(
    alloc: Global,
    doubtful: &DoubtfulTouches,
    sources: &[usize],
    own: &[u64],
) -> Result<Vec<u64>, Memory>
    requires doubtful { AreInRange (length own.now) doubtful.now.keys doubtful.now.touches.items }
    requires own { AreSourceMarks sources.now own.now }
    ensures len { IfOk result (λ words. length words.items ≡ length own.now) }
    ensures sharing { IfOk result
        (λ words. AreSharing doubtful.now.touches.items sources.now words.items) }
{
    let touching = key_marks(alloc, doubtful, own, false)?;
    let writing = key_marks(alloc, doubtful, own, true)?;
    let mut words = vec![in alloc; 0; own.len()]?;
    for touch in &doubtful.touches {
        let word = if touch.writes {
            touching[touch.key]
        } else {
            writing[touch.key]
        };
        words[touch.node] |= word;
    }
    Ok(words)
}

/// For each key, the sources that touch it, or only those that write it.
fn key_marks(
    alloc: Global,
    doubtful: &DoubtfulTouches,
    own: &[u64],
    only_writes: bool,
) -> Result<Vec<u64>, Memory>
    requires { AreInRange (length own.now) doubtful.now.keys doubtful.now.touches.items }
    ensures len { IfOk result (λ words. length words.items ≡ doubtful.now.keys) }
    ensures marks { IfOk result (λ words. (t : DoubtfulTouch) →
        Contains doubtful.now.touches.items t → IsFalse only_writes ⊎ IsTrue t.writes →
        HasBitsOf (slice_index own.now t.node) (slice_index words.items t.key)) }
{
    let mut words = vec![in alloc; 0; doubtful.keys]?;
    for touch in &doubtful.touches {
        if touch.writes || !only_writes {
            words[touch.key] |= own[touch.node];
        }
    }
    Ok(words)
}
