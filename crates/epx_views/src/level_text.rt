//! The text of the conflict levels.
ghost use Rattle.std.specs.Prelude.{◌≡◌, ◌++◌, length, flat_map, zip, OnOk, IfOk};
ghost use Rattle.epx_types.specs.CommittedMap.{commands_in};
ghost use Rattle.epx_types.specs.ExecutionOrder.{IsExecutionOrder};
ghost use Rattle.epx_types.specs.Levels.{AreLevels};
ghost use Rattle.epx_types.specs.WaitingLists.{IsWaitingList};
ghost use Rattle.epx_report.specs.ViewLines.{level_line};
ghost use Rattle.epx_views.specs.LevelText.{IsLevelText};

use crate::frame::{append_waiting, begin_text};
use epx_apply::{LevelMap, levels};
use epx_committed::{Merged, commands_of};
use epx_components::OrderList;
use epx_graph::Waiter;
use epx_report::append_level;
use epx_types::{Id, Memory};
use std::alloc::{AllocError, Global};

/// The conflict levels of the commands of some instances.
fn command_levels(alloc: Global, merged: &Merged, ids: &[Id]) -> Result<LevelMap, Memory>
    ensures { IfOk result
        (AreLevels (commands_in merged.now ids.now)) }
{
    let commands = commands_of(alloc, merged, ids)?;
    levels(alloc, &commands)
}

/// Appends the line of each instance, with the level of its command.
fn append_levels(
    alloc: Global,
    text: &mut Vec<u8>,
    ids: &[Id],
    levels: &LevelMap,
) -> Result<(), AllocError>
    requires { length levels.now ≡ length ids.now }
    ensures { OnOk result (text.new.items ≡ text.old.items
        ++ flat_map level_line (zip ids.now levels.now)) }
{
    let mut line = Vec::new(alloc);
    for (position, id) in ids.iter().enumerate() {
        append_level(alloc, text, &mut line, *id, levels.level_of(position))?;
    }
    Ok(())
}

/// The header, the instances in execution order with the levels of their commands, and the
/// instances that wait.
pub fn level_report(
    alloc: Global,
    merged: &Merged,
    order: &OrderList,
    waiters: &[Waiter],
) -> Result<Vec<u8>, Memory>
    ensures { IfOk result (λ text. IsExecutionOrder merged.now order.now
        → IsWaitingList merged.now waiters.now → IsLevelText merged.now text.items) }
{
    let mut text = begin_text(alloc, order, waiters)?;
    let ids = order.ids();
    let levels = command_levels(alloc, merged, ids)?;
    append_levels(alloc, &mut text, ids, &levels)?;
    append_waiting(alloc, &mut text, waiters)?;
    Ok(text)
}
