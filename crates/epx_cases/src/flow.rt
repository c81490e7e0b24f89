//! How many bytes devices transfer in one call, and when they fail.
ghost use Rattle.std.specs.Prelude.{◌≡◌, false};

use epx_tool::{FuseSink, FuseSource};
use std::alloc::Global;

/// The greatest number of bytes in one call, and the number of bytes after which the device fails,
/// if it fails.
#[derive(Clone, Copy)]
pub(crate) struct Flow {
    at_once: usize,
    fuse: Option<usize>,
}

/// The flow of a device that does not fail.
pub(crate) const NO_FAILURE: Flow = Flow {
    at_once: 65_536,
    fuse: None,
};

impl Flow {
    /// A flow, or None if a call would transfer no bytes.
    pub(crate) fn new(at_once: usize, fuse: Option<usize>) -> Option<Flow> {
        if at_once == 0 {
            return None;
        }
        Some(Flow { at_once, fuse })
    }

    /// The flow of a device that transfers as many bytes in one call, and that fails after this
    /// number of bytes.
    pub(crate) fn with_failure_after(self, bytes: usize) -> Flow {
        Flow {
            at_once: self.at_once,
            fuse: Some(bytes),
        }
    }

    /// A source of these bytes with this flow.
    pub(crate) fn source<'a>(&self, bytes: &'a [u8]) -> FuseSource<'a>
        ensures { result.failed ≡ false }
    {
        FuseSource::new(bytes, self.at_once.max(1), self.fuse)
    }

    /// A sink with this flow.
    pub(crate) fn sink(&self, alloc: Global) -> FuseSink
        ensures { result.failed ≡ false }
    {
        FuseSink::new(alloc, self.at_once.max(1), self.fuse)
    }
}
