//! Logs in memory as sources.
ghost use Rattle.std.specs.Prelude.{◌≡◌, IfOk};
ghost use Rattle.epx_merge.specs.LogLines.{bytes_of};

use epx_devices::MemorySource;
use epx_types::Memory;
use std::alloc::Global;

/// Sources of these logs, one each.
pub fn memory_sources<'a>(
    alloc: Global,
    logs: &'a [Vec<u8>],
) -> Result<Vec<MemorySource<'a>>, Memory>
    ensures { IfOk result (λ sources. sources.items ≡ bytes_of logs.now) }
{
    let mut sources = Vec::with_capacity(alloc, logs.len())?;
    for log in logs {
        sources.push(MemorySource::new(log))?;
    }
    Ok(sources)
}
