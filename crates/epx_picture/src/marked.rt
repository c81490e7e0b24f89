//! The elements of a list that are marked.
ghost use Rattle.std.specs.Prelude.{◌≡◌, Bool, length, map, filter, IfOk};

use epx_types::Memory;
use std::alloc::Global;

/// The items whose mark is true.
pub(crate) fn marked_items<T: Copy>(
    alloc: Global,
    items: &[T],
    marks: &[bool],
) -> Result<Vec<T>, Memory>
    requires { length marks.now ≡ length items.now }
    ensures { IfOk result (λ kept. (test : T → Bool) → marks.now ≡ map test items.now
        → kept.items ≡ filter test items.now) }
{
    let mut kept = Vec::new(alloc);
    for (index, mark) in marks.iter().enumerate() {
        if *mark {
            kept.push(items[index])?;
        }
    }
    Ok(kept)
}
