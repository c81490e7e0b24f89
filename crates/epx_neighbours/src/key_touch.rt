//! Which commands touch which keys.
ghost use Rattle.std.specs.Prelude.{◌≡◌, ◌++◌, ◌∷◌, [], map, AllPairs, IfOk, OnOk};
ghost use Rattle.epx_types.specs.between.Accesses.{access_of};
ghost use Rattle.epx_types.specs.Keys.{KeyBelow};
ghost use Rattle.epx_neighbours.specs.inner.KeyTouches.{key_touch_of, key_touches_by, touches_in};
ghost use Rattle.epx_neighbours.specs.inner.KeyTouches.{AreTouches};

use crate::key_numbers::key_number;
use epx_types::{Access, Command, Key, Memory, Op};
use std::alloc::Global;

/// A touch of a key by a command.
#[derive(Clone, Copy, Debug, PartialEq, Eq, PartialOrd, Ord)]
pub(crate) struct KeyTouch {
    /// The number of the key.
    pub(crate) key: usize,
    /// The command's position in the order.
    pub(crate) position: usize,
    pub(crate) writes: bool,
}

/// Adds one touch of a key by the command at a position.
fn add_access(
    touches: &mut Vec<KeyTouch>,
    keys: &[&Key],
    position: usize,
    access: Access<'_>,
) -> Result<(), Memory>
    requires { AllPairs KeyBelow (map (λ k. k.now) keys.now) }
    ensures { OnOk result (touches.new.items ≡ touches.old.items
        ++ key_touch_of (map (λ k. k.now) keys.now) position (access_of access.entry) ∷ []) }
{
    let key = key_number(keys, access.key);
    touches.push(KeyTouch {
        key,
        position,
        writes: access.writes,
    })?;
    Ok(())
}

/// Adds the touches of one operation of the command at a position.
fn add_operation(
    touches: &mut Vec<KeyTouch>,
    keys: &[&Key],
    position: usize,
    op: &Op,
) -> Result<(), Memory>
    requires { AllPairs KeyBelow (map (λ k. k.now) keys.now) }
    ensures { OnOk result (touches.new.items ≡ touches.old.items
        ++ key_touches_by (map (λ k. k.now) keys.now) position op.now) }
{
    let (first, second) = op.accesses();
    add_access(touches, keys, position, first)?;
    match second {
        Some(access) => add_access(touches, keys, position, access),
        None => Ok(()),
    }
}

/// Adds the touches of the command at a position.
fn add_command(
    touches: &mut Vec<KeyTouch>,
    keys: &[&Key],
    position: usize,
    ops: &[Op],
) -> Result<(), Memory>
    requires { AllPairs KeyBelow (map (λ k. k.now) keys.now) }
    ensures { OnOk result (touches.new.items ≡ touches.old.items
        ++ touches_in (map (λ k. k.now) keys.now) position ops.now) }
{
    for op in ops {
        add_operation(touches, keys, position, op)?;
    }
    Ok(())
}

/// The touches of commands, each once, by rising key and then by rising position. A read comes
/// before a write of the same command.
pub(crate) fn find_touches(
    alloc: Global,
    commands: &[Command],
    keys: &[&Key],
) -> Result<Vec<KeyTouch>, Memory>
    requires { AllPairs KeyBelow (map (λ k. k.now) keys.now) }
    ensures { IfOk result (λ touches. AreTouches (map (λ k. k.now) keys.now)
        (map (λ c. c.ops.now) commands.now) touches.items) }
{
    let mut touches = Vec::new(alloc);
    for (position, command) in commands.iter().enumerate() {
        add_command(&mut touches, keys, position, command.ops)?;
    }
    touches.sort_unstable();
    touches.dedup();
    Ok(touches)
}
