//! The commands of committed instances.
ghost use Rattle.std.specs.Prelude.{◌≡◌, map, IfOk};
ghost use Rattle.epx_types.specs.CommittedMap.{commands_in};

use crate::merged::Merged;
use epx_types::{Command, Id, Memory};
use std::alloc::Global;

/// The commands of some instances, with their operations borrowed from the map. One that is not
/// committed has no operations.
pub fn commands_of<'a>(
    alloc: Global,
    merged: &'a Merged,
    ids: &[Id],
) -> Result<Vec<Command<'a>>, Memory>
    ensures ids { IfOk result (λ commands. map (λ c. c.id) commands.items ≡ ids.now) }
    ensures ops { IfOk result (λ commands. map (λ c. c.ops.now) commands.items
        ≡ commands_in merged.now ids.now) }
{
    let mut commands = Vec::with_capacity(alloc, ids.len())?;
    for id in ids {
        let ops = match merged.get(*id) {
            Some(entry) => entry.ops(),
            None => &[],
        };
        commands.push(Command { id: *id, ops })?;
    }
    Ok(commands)
}
