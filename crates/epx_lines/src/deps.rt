//! Reads the dependencies of a line from a JSON value.
ghost use Rattle.std.specs.Prelude.{◌≡◌, ◌^◌, [], ◌∷◌, IfOk, option_map};
ghost use Rattle.serde_json.specs.View.{view};
ghost use Rattle.epx_types.specs.SmallLists.{items_of};
ghost use Rattle.epx_lines.specs.Elements.{whole};
ghost use Rattle.epx_lines.specs.DependencyList.{id_of_pair, id_of, rising_others, deps_of};

use epx_types::entry::{MAX_DEPS, is_rising};
use epx_types::{Id, Memory, SmallList};
use serde_json::Value;
use std::alloc::Global;
use std::collections::BTreeSet;

/// Reads the number of a replica, below 256.
#[tactic(auto, unfolding(crate::specs::Elements::whole))]
pub fn read_replica(value: &Value) -> Option<u8>
    ensures { result ≡ whole 256 (view value.now) }
{
    let number = value.as_u64()?;
    u8::try_from(number).ok()
}

/// Reads a whole number below 2^64.
#[tactic(auto, unfolding(crate::specs::Elements::whole))]
pub fn read_number(value: &Value) -> Option<u64>
    ensures { result ≡ whole (2 ^ 64) (view value.now) }
{
    value.as_u64()
}

/// Reads an Id from its replica and its number.
pub fn read_id_parts(replica: &Value, number: &Value) -> Option<Id>
    ensures { result ≡ id_of_pair (view replica.now ∷ view number.now ∷ []) }
{
    Some(Id {
        replica: read_replica(replica)?,
        number: read_number(number)?,
    })
}

/// Reads an Id written as `[r,i]`.
#[tactic(auto, unfolding(crate::specs::DependencyList::id_of))]
pub fn read_id(value: &Value) -> Option<Id>
    ensures { result ≡ id_of (view value.now) }
{
    let parts = value.as_array()?;
    let [replica, number] = parts.as_slice() else {
        return None;
    };
    read_id_parts(replica, number)
}

/// The Ids, sorted, without repeats and without the Id of the instance itself.
fn sort_others(alloc: Global, id: Id, named: &[Id]) -> Result<Vec<Id>, Memory>
    ensures { IfOk result (λ v. v.items ≡ rising_others id named.now) }
{
    let mut others = BTreeSet::new(alloc);
    for dep in named {
        if *dep != id {
            others.insert(*dep)?;
        }
    }
    Ok(others.into_iter().collect(alloc)?)
}

/// The Ids of a list, sorted, without repeats and without the Id of the instance itself. A list
/// that is so already is returned unchanged, in linear time.
pub fn sort_other_ids(alloc: Global, id: Id, named: SmallList<Id>) -> Result<SmallList<Id>, Memory>
    ensures { IfOk result (λ list. items_of list ≡ rising_others id (items_of named)) }
{
    let ids = named.as_slice();
    if is_rising(ids) && !ids.contains(&id) {
        return Ok(named);
    }
    let others = sort_others(alloc, id, named.as_slice())?;
    Ok(SmallList::from_vec(others))
}

/// Reads the dependencies of an instance: the distinct Ids, rising, without its own. None if the
/// value is not a list of at most `MAX_DEPS` Ids.
#[tactic(auto, unfolding(crate::specs::DependencyList::deps_of))]
pub fn read_deps(alloc: Global, id: Id, value: &Value) -> Result<Option<SmallList<Id>>, Memory>
    ensures { IfOk result (λ o. option_map items_of o ≡ deps_of id (view value.now)) }
{
    let Some(written) = value.as_array() else {
        return Ok(None);
    };
    if written.len() > MAX_DEPS {
        return Ok(None);
    }
    let mut named = Vec::with_capacity(alloc, written.len())?;
    for dep in written {
        let Some(dep) = read_id(dep) else {
            return Ok(None);
        };
        named.push(dep)?;
    }
    let named = SmallList::from_vec(named);
    Ok(Some(sort_other_ids(alloc, id, named)?))
}
