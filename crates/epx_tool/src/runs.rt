//! Runs over logs: they read logs from sources, and write the answer to a sink.
ghost use Rattle.std.specs.Prelude.{◌≡◌, ◌≢◌, ◌↔◌, ◌+◌, ◌<◌, ℕ, true, false, drop, length};
ghost use Rattle.std.specs.Prelude.{All, Some, slice_get, Ok, Err, OnOk, IfErr, IsErrOf};
ghost use Rattle.std.specs.Io.KnownBytes.{Appends, Keeps, IsAtEnd};
ghost use Rattle.epx_types.specs.Limits.{max_logs, max_log_bytes};
ghost use Rattle.epx_tool.specs.Answer.{Answers};
ghost use Rattle.epx_tool.specs.Report.{IsReport};
ghost use Rattle.epx_merge.specs.ReadingRefusals.{AreBytesOf};
ghost use Rattle.epx_tool.specs.Runs.{IsFaultOfRun, IsRunFault};
ghost use Rattle.epx_merge.specs.SourceEndings.{EachConsumesUpTo, StopsAt};
ghost use Rattle.epx_tool.specs.Delivered.{AnswersDelivered, EndsRefused, EndsWithout};
ghost use Rattle.epx_tool.specs.Delivered.{WritesDelivered};
ghost use Rattle.epx_tool.specs.TaskAnswers.{AnswersView};
ghost use Rattle.epx_devices.specs.Transfers.{AppendsPrefix};

use crate::ask::Ask;
use crate::task_runs::write_answer;
use epx_devices::{Sink, Source};
use epx_names::Task;
use epx_types::{Fault, Plan};
use std::alloc::Global;
use std::random::RandomSource;
use std::thread::Threads;

/// Reads the logs from the sources in order, and writes their report to the sink. If there is a
/// fault, nothing is written, except that a sink that fails has taken a prefix of the report.
///
/// The faults are those of `answer`, `Fault::Read` of a source and `Fault::Write` of the sink.
pub fn run<T: Threads + RandomSource + Sync, S: Source, W: Sink>(
    rt: &T,
    alloc: Global,
    sources: &mut [S],
    plan: Plan,
    sink: &mut W,
) -> Result<(), Fault>
    requires sources { All (λ s. S.model.has_failed s ≡ false) sources.old }
    requires sink { W.model.has_failed sink.old ≡ false }

    ensures text { OnOk result ((logs : _) → AreBytesOf S.model sources.old logs →
        (text : _) × Answers IsReport logs (Ok text)
        × Appends (W.model.contents sink.old) (W.model.contents sink.new) text) }
    ensures answered { OnOk result (AnswersDelivered S.model IsReport sources.old sources.new
        (Appends (W.model.contents sink.old) (W.model.contents sink.new))) }
    ensures flushed { OnOk result (W.model.is_flushed sink.new ≡ true) }

    ensures refusal { IfErr result (λ fault. (logs : _) → AreBytesOf S.model sources.old logs
        → IsRunFault IsReport logs fault) }
    ensures refused { IfErr result (λ fault. fault ≢ Fault.Write →
        EndsWithout S.model sources.old sources.new fault) }
    ensures nothing { IfErr result (λ fault. fault ≢ Fault.Write
        → Keeps (W.model.contents sink.old) (W.model.contents sink.new)) }
    ensures prefix { IsErrOf result Fault.Write → (logs : _)
        → AreBytesOf S.model sources.old logs →
        (text : _) × Answers IsReport logs (Ok text)
        × AppendsPrefix (W.model.contents sink.old) (W.model.contents sink.new) text }
    ensures part { IsErrOf result Fault.Write →
        AnswersDelivered S.model IsReport sources.old sources.new
        (AppendsPrefix (W.model.contents sink.old) (W.model.contents sink.new)) }

    ensures read { (log : _) (source : _) → slice_get sources.new log ≡ Some source
        → IsErrOf result (Fault.Read log) ↔ (S.model.has_failed source ≡ true) }
    ensures written { IsErrOf result Fault.Write ↔ (W.model.has_failed sink.new ≡ true) }

    ensures taken { EachConsumesUpTo S.model sources.old sources.new (max_log_bytes + 1) }
    ensures ended { OnOk result (All (λ s. IsAtEnd (S.model.remaining s)) sources.new) }
    ensures no_further { (log : ℕ) → StopsAt result log
        → drop (log + 1) sources.new ≡ drop (log + 1) sources.old }
    ensures too_many { IsErrOf result Fault.TooManyLogs ↔ (max_logs < length sources.old) }
    ensures none_read { IsErrOf result Fault.TooManyLogs → sources.new ≡ sources.old }
{
    write_answer(rt, alloc, Task::Run, sources, plan, sink)
}

/// Reads the logs from the sources in order, and writes a view of them to the sink. If there is a
/// fault, nothing is written, except that a sink that fails has taken a prefix of the view.
///
/// The faults are those of `view`, `Fault::Read` of a source and `Fault::Write` of the sink.
pub fn show<T: Threads + RandomSource + Sync, S: Source, W: Sink>(
    rt: &T,
    alloc: Global,
    ask: Ask,
    sources: &mut [S],
    plan: Plan,
    sink: &mut W,
) -> Result<(), Fault>
    requires sources { All (λ s. S.model.has_failed s ≡ false) sources.old }
    requires sink { W.model.has_failed sink.old ≡ false }

    ensures text { OnOk result ((logs : _) → AreBytesOf S.model sources.old logs →
        (text : _) × AnswersView ask logs (Ok text)
        × Appends (W.model.contents sink.old) (W.model.contents sink.new) text) }
    ensures answered { OnOk result
        (WritesDelivered S.model (AnswersView ask) sources.old sources.new
        (Appends (W.model.contents sink.old) (W.model.contents sink.new))) }
    ensures flushed { OnOk result (W.model.is_flushed sink.new ≡ true) }

    ensures refusal { IfErr result (λ fault. (logs : _) → AreBytesOf S.model sources.old logs
        → IsFaultOfRun (AnswersView ask) logs fault) }
    ensures refused { IfErr result (λ fault. fault ≢ Fault.Write →
        EndsRefused S.model (λ logs why. AnswersView ask logs (Err why)) sources.old
        sources.new fault) }
    ensures nothing { IfErr result (λ fault. fault ≢ Fault.Write
        → Keeps (W.model.contents sink.old) (W.model.contents sink.new)) }
    ensures prefix { IsErrOf result Fault.Write → (logs : _)
        → AreBytesOf S.model sources.old logs →
        (text : _) × AnswersView ask logs (Ok text)
        × AppendsPrefix (W.model.contents sink.old) (W.model.contents sink.new) text }
    ensures part { IsErrOf result Fault.Write →
        WritesDelivered S.model (AnswersView ask) sources.old sources.new
        (AppendsPrefix (W.model.contents sink.old) (W.model.contents sink.new)) }

    ensures read { (log : _) (source : _) → slice_get sources.new log ≡ Some source
        → IsErrOf result (Fault.Read log) ↔ (S.model.has_failed source ≡ true) }
    ensures written { IsErrOf result Fault.Write ↔ (W.model.has_failed sink.new ≡ true) }

    ensures taken { EachConsumesUpTo S.model sources.old sources.new (max_log_bytes + 1) }
    ensures ended { OnOk result (All (λ s. IsAtEnd (S.model.remaining s)) sources.new) }
    ensures no_further { (log : ℕ) → StopsAt result log
        → drop (log + 1) sources.new ≡ drop (log + 1) sources.old }
    ensures too_many { IsErrOf result Fault.TooManyLogs ↔ (max_logs < length sources.old) }
    ensures none_read { IsErrOf result Fault.TooManyLogs → sources.new ≡ sources.old }
{
    write_answer(rt, alloc, Task::from(ask), sources, plan, sink)
}
