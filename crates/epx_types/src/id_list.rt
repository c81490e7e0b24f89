//! Lists of Ids by rising Id.
ghost use Rattle.std.specs.Prelude.{◌≡◌, ◌↔◌, Contains, IfOk, MatchOption, Some, slice_get};
ghost use Rattle.epx_types.specs.declared.id.Id.{Id};
ghost use Rattle.epx_types.specs.Ids.{IsRising};

use crate::id::Id;
use crate::memory::Memory;
use std::alloc::Global;

/// The Ids, each once, by rising Id. Takes n log n time.
pub fn sort_unique(alloc: Global, ids: &[Id]) -> Result<Vec<Id>, Memory>
    ensures rising { IfOk result (λ kept. IsRising kept.items) }
    ensures exact { IfOk result (λ kept. (x : Id) → Contains kept.items x ↔ Contains ids.now x) }
{
    let mut kept = Vec::new(alloc);
    kept.extend_from_slice(ids)?;
    kept.sort_unstable();
    kept.dedup();
    Ok(kept)
}

/// The position of an Id in a list by rising Id, by binary search.
pub fn find_id(ids: &[Id], id: Id) -> Option<usize>
    requires { IsRising ids.now }
    ensures { MatchOption result (¬ Contains ids.now id) (λ k. slice_get ids.now k ≡ Some id) }
{
    match ids.binary_search(&id) {
        Ok(index) => Some(index),
        Err(_) => None,
    }
}
