//! The places of the lines that a refused batch names.
ghost use Rattle.std.specs.Prelude.{◌≡◌, ◌⊎◌, map, IfOk};
ghost use Rattle.epx_follow.specs.CallPlaces.{at_lines, place_among, held_places};
ghost use Rattle.epx_follow.specs.inner.FirstPlaces.{place_in};
ghost use Rattle.epx_follow.specs.inner.HeldLines.{pending_lines};

use epx_executor::Executor;
use epx_types::{Entry, Fault, Id, Memory, Place};
use std::alloc::Global;
use std::collections::BTreeMap;

/// A place where no line is.
const NO_PLACE: Place = Place { log: 0, line: 0 };

/// The places of instances.
fn places_among(
    alloc: Global,
    entries: &[&Entry],
    places: &BTreeMap<Id, Place>,
) -> Result<Vec<Place>, Memory>
    ensures { IfOk result (λ found. found.items
        ≡ held_places (pending_lines (place_in places.now) (map (λ e. e.now) entries.now))) }
{
    let mut found = Vec::with_capacity(alloc, entries.len())?;
    for entry in entries {
        found.push(places.get(&entry.id()).copied().unwrap_or(NO_PLACE))?;
    }
    Ok(found)
}

/// The places of the instances that wait, by rising Id.
fn pending_places(
    alloc: Global,
    executor: &Executor,
    places: &BTreeMap<Id, Place>,
) -> Result<Vec<Place>, Memory>
    ensures { IfOk result (λ found. found.items
        ≡ held_places (pending_lines (place_in places.now) executor.now.pending)) }
{
    places_among(alloc, &executor.pending(alloc)?, places)
}

/// The place of a line that a call of the executor names.
fn place_of(pending: &[Place], batch: &[Place], at: Place) -> Place
    ensures { result ≡ place_among pending.now batch.now at }
{
    let places = if at.log == 0 { pending } else { batch };
    let position = at.line.saturating_sub(1);
    if position < places.len() {
        places[position]
    } else {
        at
    }
}

/// The fault of a refused call of the executor, with the places of the lines.
pub(crate) fn fault_at_lines(
    alloc: Global,
    executor: &Executor,
    places: &BTreeMap<Id, Place>,
    batch: &[Place],
    fault: Fault,
) -> Fault
    ensures { (result ≡ Fault.Memory) ⊎ (result
        ≡ at_lines (held_places (pending_lines (place_in places.now) executor.now.pending))
        batch.now fault) }
{
    match fault {
        Fault::Disagree { id, first, second } => match pending_places(alloc, executor, places) {
            Ok(pending) => Fault::Disagree {
                id,
                first: place_of(&pending, batch, first),
                second: place_of(&pending, batch, second),
            },
            Err(Memory) => Fault::Memory,
        },
        fault => fault,
    }
}
