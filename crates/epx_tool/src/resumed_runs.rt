//! A run that resumes from an earlier report: it reads the logs and the base from sources, and
//! writes the report to a sink.
ghost use Rattle.std.specs.Prelude.{◌≡◌, ◌≢◌, ◌↔◌, ◌+◌, ◌<◌, ℕ, true, false, drop, length, All};
ghost use Rattle.std.specs.Prelude.{Some, slice_get, Ok, OnOk, IfErr, IsErrOf};
ghost use Rattle.std.specs.Io.KnownBytes.{Appends, Keeps, IsAtEnd};
ghost use Rattle.epx_report.specs.Bases.{IsBadBase};
ghost use Rattle.epx_types.specs.Limits.{max_logs, max_log_bytes};
ghost use Rattle.epx_tool.specs.Resumption.{IsResumedText, Resumes};
ghost use Rattle.epx_merge.specs.ReadingRefusals.{AreBytesOf};
ghost use Rattle.epx_tool.specs.RunsWithInput.{IsRunFaultWithInput};
ghost use Rattle.epx_merge.specs.SourceEndings.{EachConsumesUpTo, StopsAt};
ghost use Rattle.epx_tool.specs.DeliveredWithInput.{AnswersBoth, EndsWithoutBoth};
ghost use Rattle.epx_devices.specs.Transfers.{AppendsPrefix, ConsumesUpTo};

use crate::task_runs::write_with_input;
use epx_devices::{Sink, Source};
use epx_names::Task;
use epx_types::{Fault, Plan};
use std::alloc::Global;
use std::random::RandomSource;
use std::thread::Threads;

/// Reads the logs from the sources in order, then the base from its own. Writes the report that
/// resumes from the base to the sink. If there is a fault, nothing is written, except that a sink
/// that fails has taken a prefix of the report.
///
/// The faults are those of `resume`, `Fault::Read` of a source and `Fault::Write` of the sink. In
/// `LogTooLong` and `Read` the base has the number of logs as its number.
pub fn run_resume<T: Threads + RandomSource + Sync, B: Source, S: Source, W: Sink>(
    rt: &T,
    alloc: Global,
    base: &mut B,
    sources: &mut [S],
    plan: Plan,
    sink: &mut W,
) -> Result<(), Fault>
    requires base { B.model.has_failed base.old ≡ false }
    requires sources { All (λ s. S.model.has_failed s ≡ false) sources.old }
    requires sink { W.model.has_failed sink.old ≡ false }

    ensures text { OnOk result ((before : _) (logs : _) → B.model.remaining base.old ≡ Some before
        → AreBytesOf S.model sources.old logs →
        (text : _) × Resumes before logs (Ok text)
        × Appends (W.model.contents sink.old) (W.model.contents sink.new) text) }
    ensures answered { OnOk result
        (AnswersBoth B.model S.model IsBadBase IsResumedText base.old base.new sources.old
        sources.new
        (Appends (W.model.contents sink.old) (W.model.contents sink.new))) }
    ensures flushed { OnOk result (W.model.is_flushed sink.new ≡ true) }

    ensures refusal { IfErr result (λ fault. (before : _) (logs : _)
        → B.model.remaining base.old ≡ Some before → AreBytesOf S.model sources.old logs
        → IsRunFaultWithInput IsBadBase IsResumedText before logs fault) }
    ensures refused { IfErr result (λ fault. fault ≢ Fault.Write → EndsWithoutBoth B.model
        S.model IsBadBase base.old base.new sources.old sources.new fault) }
    ensures nothing { IfErr result (λ fault. fault ≢ Fault.Write
        → Keeps (W.model.contents sink.old) (W.model.contents sink.new)) }
    ensures prefix { IsErrOf result Fault.Write → (before : _) (logs : _)
        → B.model.remaining base.old ≡ Some before → AreBytesOf S.model sources.old logs →
        (text : _) × Resumes before logs (Ok text)
        × AppendsPrefix (W.model.contents sink.old) (W.model.contents sink.new) text }
    ensures part { IsErrOf result Fault.Write →
        AnswersBoth B.model S.model IsBadBase IsResumedText base.old base.new sources.old
        sources.new
        (AppendsPrefix (W.model.contents sink.old) (W.model.contents sink.new)) }

    ensures read { (log : _) (source : _) → slice_get sources.new log ≡ Some source
        → IsErrOf result (Fault.Read log) ↔ (S.model.has_failed source ≡ true) }
    ensures base_read { IsErrOf result (Fault.Read (length sources.old))
        ↔ (B.model.has_failed base.new ≡ true) }
    ensures written { IsErrOf result Fault.Write ↔ (W.model.has_failed sink.new ≡ true) }

    ensures taken { EachConsumesUpTo S.model sources.old sources.new (max_log_bytes + 1) }
    ensures base_taken { ConsumesUpTo (B.model.remaining base.old) (B.model.remaining base.new)
        (max_log_bytes + 1) }
    ensures ended { OnOk result (All (λ s. IsAtEnd (S.model.remaining s)) sources.new) }
    ensures base_ended { OnOk result (IsAtEnd (B.model.remaining base.new)) }
    ensures no_further { (log : ℕ) → StopsAt result log
        → drop (log + 1) sources.new ≡ drop (log + 1) sources.old }
    ensures base_untouched { (log : ℕ) → StopsAt result log → log < length sources.old
        → base.new ≡ base.old }
    ensures too_many { IsErrOf result Fault.TooManyLogs ↔ (max_logs < length sources.old) }
    ensures none_read { IsErrOf result Fault.TooManyLogs → (sources.new ≡ sources.old)
        × (base.new ≡ base.old) }
{
    write_with_input(rt, alloc, Task::Resume, base, sources, plan, sink)
}
