//! The committed instances, by rising Id.
ghost use Rattle.std.specs.Prelude.{◌≡◌, ◌↔◌, ◌<◌, map, Contains, IfOk, MatchOption, Some};
ghost use Rattle.std.specs.Prelude.{slice_get};
ghost use Rattle.epx_types.specs.Ids.{IsRising};

use epx_committed::PositionHints;
use epx_types::id_list::{find_id, sort_unique};
use epx_types::{Id, Memory};
use epx_versions::Versions;
use std::alloc::Global;
use std::marker::Model;

/// Rising Ids, and their positions. Contracts see the list of the Ids.
#[derive(Debug, Drop)]
pub(crate) struct CommittedIds {
    ids: Vec<Id>,
    hints: PositionHints,
}

impl Model for CommittedIds {
    ghost use Rattle.std.specs.Prelude.{List};
    ghost use Rattle.epx_types.specs.declared.id.Id.{Id};
    ghost use Rattle.epx_types.specs.Ids.{IsRising};

    ghost Value = { List Id };

    ghost view = { λ c. c.ids.items };

    ghost invariant = { λ c. IsRising c.ids.items };
}

/// The Id of each version, in the order of their numbers.
pub(crate) fn version_ids(alloc: Global, versions: &Versions) -> Result<Vec<Id>, Memory>
    ensures { IfOk result (λ ids. ids.items ≡ map (λ e. e.id) versions.now.keys) }
{
    let mut ids = Vec::with_capacity(alloc, versions.len())?;
    for number in 0..versions.len() {
        ids.push(versions.entry(number).id())?;
    }
    Ok(ids)
}

impl CommittedIds {
    /// The Ids of a list, each once.
    pub(crate) fn of(alloc: Global, ids: &[Id]) -> Result<CommittedIds, Memory>
        ensures { IfOk result (λ c. (x : _) → Contains c x ↔ Contains ids.now x) }
    {
        let ids = sort_unique(alloc, ids)?;
        let hints = PositionHints::of(alloc, ids.iter().copied())?;
        Ok(CommittedIds { ids, hints })
    }

    /// The Ids, in rising order.
    pub(crate) fn ids(&self) -> &[Id]
        ensures ids { result.now ≡ self.now }
        ensures rising { IsRising self.now }
    {
        &self.ids
    }

    /// The position of an Id, if it is committed. Its hint is usually right; otherwise a binary
    /// search finds it.
    pub(crate) fn position(&self, id: Id) -> Option<usize>
        ensures { MatchOption result (¬ Contains self.now id)
            (λ k. slice_get self.now k ≡ Some id) }
    {
        if let Some(position) = self.hints.hint(id) {
            if position < self.ids.len() && self.ids[position] == id {
                return Some(position);
            }
        }
        find_id(&self.ids, id)
    }

    /// The position of each of some committed Ids.
    pub(crate) fn positions(&self, alloc: Global, ids: &[Id]) -> Result<Vec<usize>, Memory>
        requires { (x : _) → Contains ids.now x → Contains self.now x }
        ensures { IfOk result (λ positions.
            map (slice_get self.now) positions.items ≡ map Some ids.now) }
    {
        let mut positions = Vec::with_capacity(alloc, ids.len())?;
        for id in ids {
            let Some(position) = self.position(*id) else {
                unreachable!()
            };
            positions.push(position)?;
        }
        Ok(positions)
    }
}
