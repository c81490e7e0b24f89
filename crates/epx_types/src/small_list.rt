//! Lists of which most have one item.
ghost use Rattle.std.specs.Prelude.{◌≡◌, IfOk};
ghost use Rattle.std.specs.Mem.{FitsInMemory};
ghost use Rattle.epx_types.specs.SmallLists.{items_of};

use crate::memory::Memory;
use std::alloc::Global;
use std::slice;

/// A list. A lone item is kept in the list itself; other items have an allocation.
#[derive(Debug)]
pub enum SmallList<T> {
    One(T),
    Many(Vec<T>),
}

impl<T: Drop> Drop for SmallList<T> {
    fn drop(self) {
        match self {
            SmallList::One(_) => {}
            SmallList::Many(_) => {}
        }
    }
}

impl<T: Drop> SmallList<T> {
    /// The items of a vector.
    pub fn from_vec(items: Vec<T>) -> SmallList<T>
        ensures { items_of result ≡ items.items }
    {
        let mut items = items;
        if items.len() == 1 {
            if let Some(item) = items.pop() {
                return SmallList::One(item);
            }
        }
        SmallList::Many(items)
    }

    /// Moves the items out of a vector, which keeps its room. Several items are moved into an
    /// allocation with room for just these.
    pub fn take(alloc: Global, items: &mut Vec<T>) -> Result<SmallList<T>, Memory>
        ensures { IfOk result (λ list. items_of list ≡ items.old.items) }
    {
        if items.len() == 1 {
            if let Some(item) = items.pop() {
                return Ok(SmallList::One(item));
            }
        }
        let mut taken = Vec::with_capacity(alloc, items.len())?;
        taken.append(items)?;
        Ok(SmallList::Many(taken))
    }

    /// The items in order, borrowed.
    pub fn as_slice(&self) -> &[T]
        requires { FitsInMemory T.row }
        ensures { result.now ≡ items_of self.now }
    {
        match self {
            SmallList::One(item) => slice::from_ref(item),
            SmallList::Many(items) => items.as_slice(),
        }
    }
}
