//! The place of the first line of each instance that waits.
ghost use Rattle.std.specs.Prelude.{◌≡◌, ◌≢◌, ◌<◌, ◌+◌, ◌++◌, ◌^◌, List, Contains, Some, None};
ghost use Rattle.std.specs.Prelude.{IfOk, MatchOption, OnOk, length, map};
ghost use Rattle.epx_types.specs.CommittedMap.{ids_of};
ghost use Rattle.epx_types.specs.declared.id.Id.{Id};
ghost use Rattle.epx_types.specs.Instances.{Instance};
ghost use Rattle.epx_types.specs.PlacedLines.{Placed};
ghost use Rattle.epx_executor.specs.CallLines.{lines_from};
ghost use Rattle.epx_executor.specs.Commits.{AllWait};
ghost use Rattle.epx_follow.specs.inner.FirstPlaces.{HasFirstPlaces, HasOtherPlaces, place_in};
ghost use Rattle.epx_follow.specs.inner.HeldLines.{batch_lines};

use epx_executor::Executor;
use epx_types::{Entry, Id, Memory, Place};
use std::alloc::Global;
use std::collections::BTreeMap;

/// Notes the place of a line of an instance, unless an earlier one is noted.
fn note_place(places: &mut BTreeMap<Id, Place>, id: Id, place: Place) -> Result<(), Memory>
    ensures here { OnOk result (MatchOption (place_in places.old id)
        (place_in places.new id ≡ Some place) (λ p. place_in places.new id ≡ Some p)) }
    ensures apart { OnOk result ((x : _) → x ≢ id
        → place_in places.new x ≡ place_in places.old x) }
{
    if places.get(&id).is_none() {
        places.insert(id, place)?;
    }
    Ok(())
}

/// The places of instances on consecutive lines of a log, of which the first is `line`.
fn places_from(
    alloc: Global,
    entries: &[&Entry],
    log: usize,
    line: usize,
) -> Result<BTreeMap<Id, Place>, Memory>
    requires { line + length entries.now < 2 ^ 63 }
    ensures { IfOk result (λ places. HasFirstPlaces (place_in places)
        (lines_from log line (map (λ e. e.now) entries.now))) }
{
    let mut places = BTreeMap::new(alloc);
    for (k, entry) in entries.iter().enumerate() {
        let place = Place {
            log,
            line: line + k,
        };
        note_place(&mut places, entry.id(), place)?;
    }
    Ok(places)
}

/// The places of the instances that wait, which are on such lines.
pub(crate) fn pending_places_from(
    alloc: Global,
    executor: &Executor,
    log: usize,
    line: usize,
) -> Result<BTreeMap<Id, Place>, Memory>
    requires { line + length executor.now.pending < 2 ^ 63 }
    ensures settled { AllWait executor.now }
    ensures places { IfOk result (λ places. HasFirstPlaces (place_in places)
        (lines_from log line executor.now.pending)) }
{
    places_from(alloc, &executor.pending(alloc)?, log, line)
}

/// Forgets the place of an instance.
fn forget_place(places: &mut BTreeMap<Id, Place>, id: Id)
    ensures gone { place_in places.new id ≡ None }
    ensures apart { (x : _) → x ≢ id → place_in places.new x ≡ place_in places.old x }
{
    places.remove(&id);
}

/// Forgets the places of some instances.
fn forget_places(places: &mut BTreeMap<Id, Place>, ids: &[Id])
    ensures gone { (x : _) → Contains ids.now x → place_in places.new x ≡ None }
    ensures apart { (x : _) → ¬ Contains ids.now x
        → place_in places.new x ≡ place_in places.old x }
{
    for id in ids {
        forget_place(places, *id);
    }
}

/// The Ids of instances.
pub(crate) fn entry_ids(alloc: Global, entries: &[Entry]) -> Result<Vec<Id>, Memory>
    ensures { IfOk result (λ ids. ids.items ≡ ids_of entries.now) }
{
    let mut ids = Vec::with_capacity(alloc, entries.len())?;
    for entry in entries {
        ids.push(entry.id())?;
    }
    Ok(ids)
}

/// Notes the places of more lines, which name these instances.
fn note_places(places: &mut BTreeMap<Id, Place>, ids: &[Id], more: &[Place]) -> Result<(), Memory>
    requires { length ids.now ≡ length more.now }
    ensures { OnOk result ((lines : List Placed) (es : List Instance) → ids.now ≡ ids_of es
        → HasFirstPlaces (place_in places.old) lines
        → HasFirstPlaces (place_in places.new) (lines ++ batch_lines more.now es)) }
{
    for (k, id) in ids.iter().enumerate() {
        note_place(places, *id, more[k])?;
    }
    Ok(())
}

/// The places of what waits after a batch, of which there is so much: the first ones of what waited
/// and of the lines of the batch, without those of the executed instances. Mostly nothing waits,
/// and then no place is looked up.
pub(crate) fn places_after(
    alloc: Global,
    waiting: usize,
    places: BTreeMap<Id, Place>,
    ids: &[Id],
    more: &[Place],
    executed: &[Id],
) -> Result<BTreeMap<Id, Place>, Memory>
    requires { length ids.now ≡ length more.now }
    ensures none { IfOk result (λ left. waiting ≡ 0 → (x : Id) → place_in left x ≡ None) }
    ensures others { IfOk result (λ left. waiting ≢ 0 → (lines : List Placed) (es : List Instance)
        → ids.now ≡ ids_of es → HasFirstPlaces (place_in places) lines
        → HasOtherPlaces (place_in left) (lines ++ batch_lines more.now es) executed.now) }
{
    if waiting == 0 {
        return Ok(BTreeMap::new(alloc));
    }
    let mut places = places;
    note_places(&mut places, ids, more)?;
    forget_places(&mut places, executed);
    Ok(places)
}
