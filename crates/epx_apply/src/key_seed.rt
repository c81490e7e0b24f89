//! A seed for the table of the commands' keys, for callers without a source of random numbers.
use epx_seed::Seed;
use epx_types::{Command, Op};
use std::hash::{DefaultHasher, Hash};

/// Hashes the keys of an operation.
fn hash_keys(op: &Op, keys: &mut DefaultHasher) {
    let (first, second) = op.accesses();
    first.key.text().hash(keys);
    if let Some(access) = second {
        access.key.text().hash(keys);
    }
}

/// Returns a seed that is computed from all keys of the commands.
pub(crate) fn seed_from_keys(commands: &[Command]) -> Seed {
    let mut keys = DefaultHasher::new();
    for command in commands {
        for op in command.ops {
            hash_keys(op, &mut keys);
        }
    }
    Seed::after(keys)
}
