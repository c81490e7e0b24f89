//! A seeded hasher for tables whose keys come from outside, so that nobody can choose keys that
//! collide.
#![tactic(auto)]

use std::hash::{BuildHasher, DefaultHasher, Hasher};
use std::random::RandomSource;

/// A seed for hashing. It is not known when the keys are chosen.
///
/// `DefaultHasher` is SipHash, which is made for this: without the seed its hashes look random, so
/// nobody can compute keys that collide. The usual hasher of the tables begins with a known number
/// and can be inverted.
///
/// What a table holds, and in which order, is the same for every seed. Only the time depends on
/// it.
#[derive(Clone, Copy)]
pub struct Seed {
    /// A hasher to which the seed was written.
    start: DefaultHasher,
}

impl Seed {
    /// A seed of 16 random bytes of the runtime. If the runtime fails, the bytes are zeros: only
    /// time depends on them.
    pub fn draw<R: RandomSource>(rt: &R) -> Seed {
        let mut bytes = [0; 16];
        if rt.fill_bytes(&mut bytes).is_err() {
            bytes = [0; 16];
        }
        let mut start = DefaultHasher::new();
        start.write(&bytes);
        Seed { start }
    }

    /// A seed computed from the keys themselves, where there is no source of random bytes. `keys`
    /// is a hasher to which all of them were written, so another choice of keys has another seed.
    pub fn after(mut keys: DefaultHasher) -> Seed {
        let first = keys.finish();
        keys.write_u64(first);
        let mut start = DefaultHasher::new();
        start.write_u64(first);
        start.write_u64(keys.finish());
        Seed { start }
    }
}

impl BuildHasher for Seed {
    type Hasher = DefaultHasher;

    ghost build_hasher = { λ seed. seed.start };

    fn build_hasher(&self) -> DefaultHasher {
        self.start
    }
}
