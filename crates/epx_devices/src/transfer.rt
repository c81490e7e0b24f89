//! Reading a whole log, and writing a whole text.
ghost use Rattle.std.specs.Prelude.{◌≡◌, ◌≤◌, ◌↔◌, ◌+◌, ◌++◌, ℕ, List, true, false, length, IfOk};
ghost use Rattle.std.specs.Prelude.{OnOk, IfErr, IfSome, IsErrOf};
ghost use Rattle.std.specs.Io.KnownBytes.{Appends, IsAtEnd};
ghost use Rattle.epx_devices.specs.Deliveries.{DeliversAll, IsLogStop};
ghost use Rattle.epx_devices.specs.Devices.{failed_after};
ghost use Rattle.epx_types.specs.Limits.{max_log_bytes};
ghost use Rattle.epx_devices.specs.between.LogParts.{EndsPart, IsReadUpTo};
ghost use Rattle.epx_devices.specs.Transfers.{IsReadLogFault, ConsumesUpTo, ConsumesExactly};
ghost use Rattle.epx_devices.specs.Transfers.{AppendsPrefix};

use crate::device::{Sink, Source};
use epx_types::limits::MAX_LOG_BYTES;
use epx_types::{Fault, Memory};
use std::alloc::Global;

/// One read has room for at most this many bytes.
const PART_BYTES: usize = 65_536;

/// Bytes of a log, and whether the log ends with them.
#[derive(Debug, Drop)]
pub struct LogPart {
    pub bytes: Vec<u8>,
    pub is_last: bool,
}

/// Reads on in a log of which `before` bytes and then `bytes` are read: to the end of the log, or
/// until there are `most` bytes after those before. Fails as `read_log` does.
pub fn read_on<R: Source>(
    log: usize,
    source: &mut R,
    before: usize,
    bytes: Vec<u8>,
    most: usize,
) -> Result<LogPart, Fault>
    requires well { R.model.has_failed source.old ≡ false }
    requires few { before + length bytes.items ≤ max_log_bytes + 1 }
    ensures { (first : _) (head : List ℕ) → length head ≡ before
        → IsReadUpTo R.model first source.old (head ++ bytes.items)
        → EndsPart R.model log first source.new head most result }
{
    let mut bytes = bytes;
    let mut part = [0; PART_BYTES];
    while bytes.len() < most && before + bytes.len() <= MAX_LOG_BYTES {
        let room = PART_BYTES.min(MAX_LOG_BYTES + 1 - before - bytes.len());
        match source.read_some(&mut part[..room]) {
            Ok(0) => {
                return Ok(LogPart {
                    bytes,
                    is_last: true,
                });
            }
            Ok(count) => bytes
                .extend_from_slice(&part[..count])
                .map_err(Memory::from)?,
            Err(_) => return Err(Fault::Read { log }),
        }
    }
    if before + bytes.len() > MAX_LOG_BYTES {
        return Err(Fault::LogTooLong { log });
    }
    Ok(LogPart {
        bytes,
        is_last: false,
    })
}

/// Reads all bytes of the source; `log` is the number of the log in a fault.
///
/// Fails with `LogTooLong` at the first byte past `MAX_LOG_BYTES`, and reads no byte after that
/// one. Fails with `Read` if the source fails, and with `Memory` if an allocation fails.
pub fn read_log<R: Source>(alloc: Global, log: usize, source: &mut R) -> Result<Vec<u8>, Fault>
    requires { R.model.has_failed source.old ≡ false }

    ensures bytes { IfOk result
        (λ bytes. IfSome (R.model.remaining source.old) (λ all. bytes.items ≡ all)) }
    ensures delivered { IfOk result (λ bytes.
        DeliversAll R.model source.old source.new bytes.items) }
    ensures end { OnOk result (IsAtEnd (R.model.remaining source.new)) }
    ensures fits { IfOk result (λ bytes. length bytes.items ≤ max_log_bytes) }

    ensures faults { IfErr result (IsReadLogFault log) }
    ensures stops { IfErr result (IsLogStop R.model log source.old source.new) }
    ensures failed { IsErrOf result (Fault.Read log) ↔ (R.model.has_failed source.new ≡ true) }
    ensures too_long { IsErrOf result (Fault.LogTooLong log)
        → ConsumesExactly (R.model.remaining source.old) (R.model.remaining source.new)
        (max_log_bytes + 1) }
    ensures no_further { ConsumesUpTo (R.model.remaining source.old) (R.model.remaining source.new)
        (max_log_bytes + 1) }
{
    let part = read_on(log, source, 0, Vec::new(alloc), MAX_LOG_BYTES + 1)?;
    Ok(part.bytes)
}

/// Writes all bytes to the sink and flushes it. If the sink fails, it has accepted a prefix of the
/// bytes, and the fault is `Write`. Whether a call had failed before does not matter.
pub fn write_out<W: Sink>(bytes: &[u8], sink: &mut W) -> Result<(), Fault>
    ensures bytes { let contents = W.model.contents in
        OnOk result (Appends (contents sink.old) (contents sink.new) bytes.now) }
    ensures flushed { OnOk result (W.model.is_flushed sink.new ≡ true) }

    ensures faults { IfErr result (λ fault. fault ≡ Fault.Write) }
    ensures failed { W.model.has_failed sink.new
        ≡ failed_after (W.model.has_failed sink.old) result }
    ensures prefix { let contents = W.model.contents in
        AppendsPrefix (contents sink.old) (contents sink.new) bytes.now }
{
    let mut taken = 0;
    while taken < bytes.len() {
        match sink.write_some(&bytes[taken..]) {
            Ok(count) => taken += count,
            Err(_) => return Err(Fault::Write),
        }
    }
    match sink.flush() {
        Ok(()) => Ok(()),
        Err(_) => Err(Fault::Write),
    }
}
