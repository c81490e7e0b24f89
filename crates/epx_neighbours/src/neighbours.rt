//! Finds the neighbours on each key.
ghost use Rattle.std.specs.Prelude.{◌↔◌, ◌⊎◌, ℕ, ◌<◌, ◌≤◌, length, AllPairs, Contains};
ghost use Rattle.std.specs.Prelude.{IfOk, OnOk};
ghost use Rattle.epx_neighbours.specs.declared.neighbours.Neighbours.{Neighbours};
ghost use Rattle.epx_neighbours.specs.inner.KeyTouches.{TouchBelow};
ghost use Rattle.epx_neighbours.specs.inner.NumberedPairs.{AreNumbered, IsMadeBy};

use crate::key_touch::KeyTouch;
use epx_types::Memory;
use std::alloc::Global;

/// Two commands that are neighbours on a key.
#[derive(Clone, Copy, Debug, PartialEq, Eq)]
pub(crate) struct Neighbours {
    /// The position of the command that is executed first.
    pub(crate) before: usize,
    pub(crate) after: usize,
    /// The number of the key.
    pub(crate) key: usize,
}

/// Adds the neighbours that the touch at an index makes with earlier touches of its key. They
/// begin with the last writer.
fn add_neighbours(
    found: &mut Vec<Neighbours>,
    touches: &[KeyTouch],
    last_writer: usize,
    index: usize,
) -> Result<(), Memory>
    requires last_writer { last_writer ≤ index }
    requires index { index < length touches.now }
    ensures { OnOk result ((n : Neighbours) → Contains found.new.items n
        ↔ (Contains found.old.items n ⊎ ((j : ℕ) × IsMadeBy touches.now last_writer index n j))) }
{
    let touch = touches[index];
    let end = if touch.writes {
        index
    } else {
        index.min(last_writer + 1)
    };
    for earlier in last_writer..end {
        let other = touches[earlier];
        if (touch.writes || other.writes) && other.position < touch.position {
            found.push(Neighbours {
                before: other.position,
                after: touch.position,
                key: touch.key,
            })?;
        }
    }
    Ok(())
}

/// Finds the neighbours on all keys. Each touch is compared with two earlier ones at most, except
/// that a writer is compared with all readers since the last writer.
pub(crate) fn find_neighbours(
    alloc: Global,
    touches: &[KeyTouch],
) -> Result<Vec<Neighbours>, Memory>
    requires { AllPairs TouchBelow touches.now }
    ensures { IfOk result (λ found. (n : Neighbours) → Contains found.items n
        ↔ AreNumbered touches.now n) }
{
    let mut found = Vec::new(alloc);
    let mut last_writer = 0;
    for index in 0..touches.len() {
        if touches[index].key != touches[last_writer].key {
            last_writer = index;
        }
        add_neighbours(&mut found, touches, last_writer, index)?;
        if touches[index].writes {
            last_writer = index;
        }
    }
    Ok(found)
}
