//! Tests of hashes of Ids by seed. The values are those of Rust's `DefaultHasher` over the same
//! bytes.
use crate::fixtures::id;
use epx_seed::Seed;
use std::hash::{BuildHasher, DefaultHasher, Hash};
use std::io;
use std::random::RandomSource;
use std::test::Fail;

/// A random source that returns the bytes 0, 1, 2 and so on.
struct Counting;

impl RandomSource for Counting {
    fn fill_bytes(&self, buf: &mut [u8]) -> io::Result<()> {
        let mut next = 0u8;
        for byte in buf.iter_mut() {
            *byte = next;
            next = next.wrapping_add(1);
        }
        Ok(())
    }
}

/// A random source that fails after the first byte.
struct Broken;

impl RandomSource for Broken {
    fn fill_bytes(&self, buf: &mut [u8]) -> io::Result<()> {
        if let Some(first) = buf.first_mut() {
            *first = 1;
        }
        Err(io::Error::from_raw_os_error(5))
    }
}

/// The seed that follows from one key.
fn after(key: &str) -> Seed {
    let mut keys = DefaultHasher::new();
    key.hash(&mut keys);
    Seed::after(keys)
}

#[test]
fn a_drawn_seed_hashes_after_sixteen_bytes(rt: HostRuntime) -> Result<(), Fail> {
    assert!(rt; Seed::draw(&Counting).hash_one(id(3, 5)) == 0xaafa_0176_6d5c_dd7c);
    Ok(())
}

#[test]
fn a_source_that_fails_gives_zeros(rt: HostRuntime) -> Result<(), Fail> {
    assert!(rt; Seed::draw(&Broken).hash_one(id(3, 5)) == 0x2e2d_74fe_f7e5_49a7);
    Ok(())
}

#[test]
fn the_runtime_draws_another_seed_each_time(rt: HostRuntime) -> Result<(), Fail> {
    let first = Seed::draw(&rt).hash_one(id(3, 5));
    assert!(rt; Seed::draw(&rt).hash_one(id(3, 5)) != first);
    Ok(())
}

#[test]
fn another_key_is_another_seed(rt: HostRuntime) -> Result<(), Fail> {
    assert!(rt; after("a").hash_one(id(3, 5)) == 0xc59a_8091_bc4e_ab84);
    assert!(rt; after("b").hash_one(id(3, 5)) == 0x1af0_88e2_1f20_d7a8);
    Ok(())
}
