//! A run that checks a list: it reads the logs and the list from sources, and writes the verdict
//! to a sink.
ghost use Rattle.std.specs.Prelude.{◌≡◌, ◌≢◌, ◌↔◌, ◌+◌, ◌<◌, ℕ, true, false, drop, length, All};
ghost use Rattle.std.specs.Prelude.{Some, slice_get, Ok, OnOk, IfErr, IsErrOf};
ghost use Rattle.std.specs.Io.KnownBytes.{Appends, Keeps, IsAtEnd};
ghost use Rattle.epx_report.specs.Lists.{IsBadList};
ghost use Rattle.epx_types.specs.Limits.{max_logs, max_log_bytes};
ghost use Rattle.epx_tool.specs.CheckAnswers.{IsCheckText, Checks};
ghost use Rattle.epx_merge.specs.ReadingRefusals.{AreBytesOf};
ghost use Rattle.epx_tool.specs.RunsWithInput.{IsRunFaultWithInput};
ghost use Rattle.epx_merge.specs.SourceEndings.{EachConsumesUpTo, StopsAt};
ghost use Rattle.epx_tool.specs.DeliveredWithInput.{AnswersBoth, EndsWithoutBoth};
ghost use Rattle.epx_devices.specs.Transfers.{AppendsPrefix, ConsumesUpTo};

use crate::task_runs::write_with_input;
use epx_devices::{Sink, Source};
use epx_names::Task;
use epx_types::{Fault, Plan};
use std::alloc::Global;
use std::random::RandomSource;
use std::thread::Threads;

/// Reads the logs from the sources in order, then the list from its own. Writes the verdict on the
/// list to the sink. If there is a fault, nothing is written, except that a sink that fails has
/// taken a prefix of the verdict.
///
/// The faults are those of `check`, `Fault::Read` of a source and `Fault::Write` of the sink. In
/// `LogTooLong` and `Read` the list has the number of logs as its number.
pub fn run_check<T: Threads + RandomSource + Sync, L: Source, S: Source, W: Sink>(
    rt: &T,
    alloc: Global,
    list: &mut L,
    sources: &mut [S],
    plan: Plan,
    sink: &mut W,
) -> Result<(), Fault>
    requires list { L.model.has_failed list.old ≡ false }
    requires sources { All (λ s. S.model.has_failed s ≡ false) sources.old }
    requires sink { W.model.has_failed sink.old ≡ false }

    ensures text { OnOk result ((listed : _) (logs : _) → L.model.remaining list.old ≡ Some listed
        → AreBytesOf S.model sources.old logs →
        (text : _) × Checks listed logs (Ok text)
        × Appends (W.model.contents sink.old) (W.model.contents sink.new) text) }
    ensures answered { OnOk result
        (AnswersBoth L.model S.model IsBadList IsCheckText list.old list.new sources.old sources.new
        (Appends (W.model.contents sink.old) (W.model.contents sink.new))) }
    ensures flushed { OnOk result (W.model.is_flushed sink.new ≡ true) }

    ensures refusal { IfErr result (λ fault. (listed : _) (logs : _)
        → L.model.remaining list.old ≡ Some listed → AreBytesOf S.model sources.old logs
        → IsRunFaultWithInput IsBadList IsCheckText listed logs fault) }
    ensures refused { IfErr result (λ fault. fault ≢ Fault.Write → EndsWithoutBoth L.model
        S.model IsBadList list.old list.new sources.old sources.new fault) }
    ensures nothing { IfErr result (λ fault. fault ≢ Fault.Write
        → Keeps (W.model.contents sink.old) (W.model.contents sink.new)) }
    ensures prefix { IsErrOf result Fault.Write → (listed : _) (logs : _)
        → L.model.remaining list.old ≡ Some listed → AreBytesOf S.model sources.old logs →
        (text : _) × Checks listed logs (Ok text)
        × AppendsPrefix (W.model.contents sink.old) (W.model.contents sink.new) text }
    ensures part { IsErrOf result Fault.Write →
        AnswersBoth L.model S.model IsBadList IsCheckText list.old list.new sources.old sources.new
        (AppendsPrefix (W.model.contents sink.old) (W.model.contents sink.new)) }

    ensures read { (log : _) (source : _) → slice_get sources.new log ≡ Some source
        → IsErrOf result (Fault.Read log) ↔ (S.model.has_failed source ≡ true) }
    ensures list_read { IsErrOf result (Fault.Read (length sources.old))
        ↔ (L.model.has_failed list.new ≡ true) }
    ensures written { IsErrOf result Fault.Write ↔ (W.model.has_failed sink.new ≡ true) }

    ensures taken { EachConsumesUpTo S.model sources.old sources.new (max_log_bytes + 1) }
    ensures list_taken { ConsumesUpTo (L.model.remaining list.old) (L.model.remaining list.new)
        (max_log_bytes + 1) }
    ensures ended { OnOk result (All (λ s. IsAtEnd (S.model.remaining s)) sources.new) }
    ensures list_ended { OnOk result (IsAtEnd (L.model.remaining list.new)) }
    ensures no_further { (log : ℕ) → StopsAt result log
        → drop (log + 1) sources.new ≡ drop (log + 1) sources.old }
    ensures list_untouched { (log : ℕ) → StopsAt result log → log < length sources.old
        → list.new ≡ list.old }
    ensures too_many { IsErrOf result Fault.TooManyLogs ↔ (max_logs < length sources.old) }
    ensures none_read { IsErrOf result Fault.TooManyLogs → (sources.new ≡ sources.old)
        × (list.new ≡ list.old) }
{
    write_with_input(rt, alloc, Task::Check, list, sources, plan, sink)
}
