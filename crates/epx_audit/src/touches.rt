//! Which keys the commands of an order touch.
ghost use Rattle.std.specs.Prelude.{◌≡◌, ◌<◌, [], ◌∷◌, ◌++◌, length, All, IfOk, OnOk};
ghost use Rattle.epx_audit.specs.inner.Touches.{hash_of, hashed_touches, touch, touches_by};
ghost use Rattle.epx_audit.specs.inner.Touches.{ArePlaced};
ghost use Rattle.epx_audit.specs.inner.Touches.{HoldTouches};

use epx_committed::Merged;
use epx_seed::Seed;
use epx_types::{Key, Memory, Op};
use std::alloc::Global;
use std::hash::{BuildHasher, DefaultHasher, Hash, Hasher};

/// A touch of a key by a command. The key is known by its hash alone. Keys that share a hash count
/// as one key, which can only make the audit ask for more.
#[derive(Clone, Copy, Debug, PartialEq, Eq, PartialOrd, Ord)]
pub(crate) struct KeyUse {
    pub(crate) hash: u64,
    /// The command's position in the order.
    pub(crate) position: usize,
    pub(crate) writes: bool,
}

/// The hash of a key, by a hasher that begins as `start`.
fn hash_of(start: DefaultHasher, key: &Key) -> u64
    ensures { result ≡ hash_of start key.now }
{
    let mut hasher = start;
    key.text().hash(&mut hasher);
    hasher.finish()
}

/// Adds one touch of a key by the command at a position.
fn add_key(
    touches: &mut Vec<KeyUse>,
    start: DefaultHasher,
    position: usize,
    key: &Key,
    writes: bool,
) -> Result<(), Memory>
    ensures { OnOk result (touches.new.items ≡ touches.old.items
        ++ touch start position key.now writes ∷ []) }
{
    let hash = hash_of(start, key);
    touches.push(KeyUse {
        hash,
        position,
        writes,
    })?;
    Ok(())
}

/// Adds the touches of one operation of the command at a position.
fn add_operation(
    touches: &mut Vec<KeyUse>,
    start: DefaultHasher,
    position: usize,
    op: &Op,
) -> Result<(), Memory>
    ensures { OnOk result (touches.new.items ≡ touches.old.items
        ++ touches_by start position op.now) }
{
    let (first, second) = op.accesses();
    add_key(touches, start, position, first.key, first.writes)?;
    match second {
        Some(access) => add_key(touches, start, position, access.key, access.writes),
        None => Ok(()),
    }
}

/// Adds the touches of the command at a position.
fn add_command(
    touches: &mut Vec<KeyUse>,
    start: DefaultHasher,
    position: usize,
    ops: &[Op],
) -> Result<(), Memory>
    ensures { OnOk result (touches.new.items ≡ touches.old.items
        ++ hashed_touches start position ops.now) }
{
    for op in ops {
        add_operation(touches, start, position, op)?;
    }
    Ok(())
}

/// A hasher whose state depends on all keys of a map, so that nobody can choose keys that collide.
pub(crate) fn map_hasher(alloc: Global, merged: &Merged) -> Result<DefaultHasher, Memory> {
    let mut keys = DefaultHasher::new();
    let mut touches = Vec::new(alloc);
    for position in 0..merged.len() {
        touches.clear();
        let ops = merged.entry_at(position).ops();
        add_command(&mut touches, DefaultHasher::new(), position, ops)?;
        for touch in &touches {
            keys.write_u64(touch.hash);
        }
    }
    Ok(Seed::after(keys).build_hasher())
}

/// The touches of the commands of an order, by increasing hash and then by increasing position.
/// The order is a list of nodes.
pub(crate) fn find_touches(
    alloc: Global,
    merged: &Merged,
    nodes: &[usize],
    start: DefaultHasher,
) -> Result<Vec<KeyUse>, Memory>
    requires { All (λ k. k < length merged.now) nodes.now }
    ensures placed { IfOk result (λ touches. ArePlaced (length nodes.now) touches.items) }
    ensures whole { IfOk result
        (λ touches. HoldTouches start merged.now nodes.now (length nodes.now) touches.items) }
{
    let mut touches = Vec::new(alloc);
    for (position, node) in nodes.iter().enumerate() {
        add_command(&mut touches, start, position, merged.entry_at(*node).ops())?;
    }
    touches.sort()?;
    Ok(touches)
}
