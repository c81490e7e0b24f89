//! The calls that returned, and whose instances are not executed.
ghost use Rattle.std.specs.Prelude.{◌≡◌, List, zip, IfOk};
ghost use Rattle.epx_types.specs.declared.id.Id.{Id};
ghost use Rattle.epx_lines.specs.DependencyList.{rising_ids};
ghost use Rattle.epx_linear.specs.ClientCalls.{IsHistory, calls_at, calls_in};
ghost use Rattle.epx_linear.specs.LinearTexts.{lost_ids};
ghost use Rattle.epx_linear.specs.inner.MarkedCalls.{AreMarked, unmarked_ids};

use crate::client_call::ClientCall;
use epx_types::{Id, Memory};
use std::alloc::Global;
use std::collections::BTreeSet;

/// Returns for each of so many calls whether its place is among these.
fn are_executed(alloc: Global, calls: usize, places: &[Option<usize>]) -> Result<Vec<bool>, Memory>
    ensures { IfOk result (λ marks. AreMarked calls places.now marks.items) }
{
    let mut executed = vec![in alloc; false; calls]?;
    for place in places {
        if let Some(at) = *place {
            if at < calls {
                executed[at] = true;
            }
        }
    }
    Ok(executed)
}

/// Returns the instances of the calls that returned and are not executed, by rising Id.
fn sort_lost(alloc: Global, history: &[ClientCall], executed: &[bool]) -> Result<Vec<Id>, Memory>
    ensures { IfOk result
        (λ v. v.items ≡ rising_ids (unmarked_ids (zip history.now executed.now))) }
{
    let mut lost = BTreeSet::new(alloc);
    for (call, is_executed) in history.iter().zip(executed) {
        if call.returned.is_some() && !*is_executed {
            lost.insert(call.id)?;
        }
    }
    Ok(lost.into_iter().collect(alloc)?)
}

/// Returns the instances of the calls that returned and are not executed, by rising Id. The calls
/// of those that are executed are at these places.
pub(crate) fn lost_ids(
    alloc: Global,
    history: &[ClientCall],
    places: &[Option<usize>],
) -> Result<Vec<Id>, Memory>
    requires { IsHistory history.now }
    ensures { IfOk result (λ v. (ids : List Id)
        → calls_at history.now places.now ≡ calls_in history.now ids
        → v.items ≡ lost_ids ids history.now) }
{
    let executed = are_executed(alloc, history.len(), places)?;
    sort_lost(alloc, history, &executed)
}
