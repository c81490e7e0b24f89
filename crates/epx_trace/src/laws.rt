//! Laws of traces: each function has an empty body, and its contract is the law.
ghost use Rattle.epx_trace.specs.TraceLaws.{LastWriteIsStored, TouchesFindLastWrites};
ghost use Rattle.epx_trace.specs.TraceLaws.{TraceTextExists, TraceTextIsUnique};

/// Each key has a text of its trace.
pub fn trace_text_exists()
    ensures { TraceTextExists }
{}

/// A key has at most one text of its trace.
pub fn trace_text_is_unique()
    ensures { TraceTextIsUnique }
{}

/// Each touch finds the value that the last write before it left.
pub fn touches_find_last_writes()
    ensures { TouchesFindLastWrites }
{}

/// The value that the last write left is in the final store.
pub fn last_write_is_stored()
    ensures { LastWriteIsStored }
{}
