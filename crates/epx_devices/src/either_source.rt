//! A source of one of two types.
ghost use Rattle.epx_devices.specs.EitherSources.{either_source};
ghost use Rattle.epx_devices.specs.inner.EitherReads.{either_is_one_read};

use crate::device::{DeviceFault, Source};

/// A source of type `A` or of type `B`, so that one list can hold both.
#[derive(Drop)]
pub enum EitherSource<A, B> {
    First(A),
    Second(B),
}

impl<A: Source, B: Source> Source for EitherSource<A, B> {
    ghost model = { either_source A.model B.model };

    ghost is_one_read = { either_is_one_read A.model B.model A.is_one_read B.is_one_read };

    fn read_some(&mut self, part: &mut [u8]) -> Result<usize, DeviceFault> {
        match self {
            EitherSource::First(source) => source.read_some(part),
            EitherSource::Second(source) => source.read_some(part),
        }
    }

    fn failed(&self) -> bool {
        match self {
            EitherSource::First(source) => source.failed(),
            EitherSource::Second(source) => source.failed(),
        }
    }
}
