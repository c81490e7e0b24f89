//! Laws of reports: each is a base, and the trace of a key ends in its store.
ghost use Rattle.epx_answer_laws.specs.ResumptionLaws.{ReportIsAfterNothing, ReportIsBase};
ghost use Rattle.epx_answer_laws.specs.TraceReportLaws.{TraceEndsInTheStore};
ghost use Rattle.epx_answer_laws.specs.TraceReportLaws.{LastWriteLineIsTheStoreLine};

/// The report of a map is its report after nothing is done, from the empty store.
pub fn report_is_after_nothing()
    ensures { ReportIsAfterNothing }
{}

/// A report, resumed or not, is a base of the instances that are done after it and of its final
/// store.
pub fn report_is_base()
    ensures { ReportIsBase }
{}

/// The store of a report has under a key what the last write of the key's trace leaves.
pub fn trace_ends_in_the_store()
    ensures { TraceEndsInTheStore }
{}

/// The report of logs has a store line for a key exactly if the last write line of the key's trace
/// ends with a value, and with this value.
pub fn last_write_line_is_the_store_line()
    ensures { LastWriteLineIsTheStoreLine }
{}
