//! Reading the bytes of a state.
ghost use Rattle.std.specs.Prelude.{◌≤◌, IfErr, IfOk, length};
ghost use Rattle.epx_devices.specs.Deliveries.{DeliversAll};
ghost use Rattle.epx_follow.specs.FollowingStops.{most_followed_bytes};
ghost use Rattle.epx_program.specs.FollowStops.{CannotRead};

use epx_devices::Source;
use epx_types::{Fault, Memory};
use std::alloc::Global;

/// One read has room for at most this many bytes.
const PART_BYTES: usize = 65_536;

/// The greatest number of bytes of a state, as of a log that is followed.
const MOST_BYTES: usize = 1 << 62;

/// All bytes of the source, which has the number `log` in faults.
pub(crate) fn read_state_bytes<S: Source>(
    alloc: Global,
    log: usize,
    source: &mut S,
) -> Result<Vec<u8>, Fault>
    ensures delivered { IfOk result (λ bytes. DeliversAll S.model source.old source.new
        bytes.items) }
    ensures few { IfOk result (λ bytes. length bytes.items ≤ most_followed_bytes) }
    ensures stopped { IfErr result (CannotRead S.model log source.old source.new) }
{
    let mut bytes = Vec::new(alloc);
    let mut part = [0; PART_BYTES];
    while bytes.len() <= MOST_BYTES {
        match source.read_some(&mut part) {
            Ok(0) => return Ok(bytes),
            Ok(count) => bytes
                .extend_from_slice(&part[..count])
                .map_err(Memory::from)?,
            Err(_) => return Err(Fault::Read { log }),
        }
    }
    Err(Fault::LogTooLong { log })
}
