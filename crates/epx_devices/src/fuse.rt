//! The fuse of a failing device: how many bytes it allows.
ghost use Rattle.std.specs.Prelude.{◌≡◌, ◌-◌, option_map};
ghost use Rattle.epx_devices.specs.Fuses.{allowed_of};

/// How many of `wanted` bytes one call transfers. Without a fuse only `at_once` limits them.
pub(crate) fn allowed(wanted: usize, at_once: usize, fuse: Option<usize>) -> usize
    ensures { result ≡ allowed_of wanted at_once fuse }
{
    wanted.min(at_once).min(fuse.unwrap_or(wanted))
}

/// The fuse that remains after `count` bytes.
pub(crate) fn remaining_after(fuse: Option<usize>, count: usize) -> Option<usize>
    ensures { result ≡ option_map (λ k. k - count) fuse }
{
    fuse.map(|left| left.saturating_sub(count))
}
