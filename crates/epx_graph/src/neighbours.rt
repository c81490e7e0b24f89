//! Whether the neighbours at a position of a list by rising Id show that an Id is not in the list.
ghost use Rattle.std.specs.Prelude.{◌<◌, ◌≤◌, ℕ, length, Contains, IsTrue};
ghost use Rattle.std.specs.Prelude.{slice_index_or};
ghost use Rattle.epx_types.specs.declared.id.Id.{Id};
ghost use Rattle.epx_types.specs.Ids.{Below, IsRising};

use epx_types::Id;

/// Whether all Ids before a position are below this one. False says nothing.
fn all_below_before(ids: &[Id], index: usize, id: Id) -> bool
    requires { IsRising ids.now }
    ensures { IsTrue result → (k : ℕ) (d : Id) → k < index
        → Below (slice_index_or ids.now k d) id }
{
    if index == 0 {
        return true;
    }
    index <= ids.len() && ids[index - 1] < id
}

/// Whether all Ids from a position on are above this one. False says nothing.
fn all_above_from(ids: &[Id], index: usize, id: Id) -> bool
    requires { IsRising ids.now }
    ensures { IsTrue result → (k : ℕ) (d : Id) → index ≤ k → k < length ids.now
        → Below id (slice_index_or ids.now k d) }
{
    if index >= ids.len() {
        return true;
    }
    id < ids[index]
}

/// Whether the neighbours at a position show that the Id is not in the list. False says nothing.
pub(crate) fn is_absent(ids: &[Id], index: usize, id: Id) -> bool
    requires { IsRising ids.now }
    ensures { IsTrue result → ¬ Contains ids.now id }
{
    all_below_before(ids, index, id) && all_above_from(ids, index, id)
}
