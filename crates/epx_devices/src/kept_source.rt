//! A source that keeps what it reads.
ghost use Rattle.std.specs.Prelude.{◌≡◌};

use crate::device::{DeviceFault, Source};
use std::alloc::Global;
use std::marker::Model;

/// Reads another source. Where it is asked to, it keeps a copy of the bytes, so that they can be
/// looked at again: a pipe gives them only once. If memory runs out for the copy, it keeps nothing.
#[derive(Drop)]
pub struct KeptSource<S> {
    source: S,
    kept: Option<Vec<u8>>,
}

impl<S> Model for KeptSource<S> {
    ghost Value = { S };

    ghost view = { λ s. s.source };
}

impl<S: Source> KeptSource<S> {
    /// A source that keeps a copy if `keeps` says so.
    pub fn new(alloc: Global, source: S, keeps: bool) -> KeptSource<S>
        ensures { result ≡ source }
    {
        let kept = if keeps { Some(Vec::new(alloc)) } else { None };
        KeptSource { source, kept }
    }

    /// The bytes that were read, if they were kept.
    pub fn take_kept(&mut self) -> Option<Vec<u8>>
        ensures { self.new ≡ self.old }
    {
        self.kept.take()
    }

    /// Keeps more bytes.
    fn keep(&mut self, bytes: &[u8])
        ensures { self.new ≡ self.old }
    {
        if let Some(kept) = &mut self.kept {
            if kept.extend_from_slice(bytes).is_err() {
                self.kept = None;
            }
        }
    }
}

impl<S: Source> Source for KeptSource<S> {
    ghost model = { S.model };

    ghost is_one_read = { S.is_one_read };

    fn read_some(&mut self, part: &mut [u8]) -> Result<usize, DeviceFault> {
        match self.source.read_some(part) {
            Ok(count) => {
                self.keep(&part[..count]);
                Ok(count)
            }
            Err(fault) => Err(fault),
        }
    }

    fn failed(&self) -> bool {
        self.source.failed()
    }
}
