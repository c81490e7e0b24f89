//! Explains a fault.
ghost use Rattle.std.specs.Prelude.{◌≡◌, ℕ, IfOk, IfNone};

use crate::base_line::explain_base_line;
use crate::differences::explain_differences;
use crate::inputs::Inputs;
use crate::log_line::explain_bad_line;
use crate::reading::{explain_length, explain_log_count, explain_read};
use epx_bad_lines::{made, show_text};
use epx_types::limits::MAX_INSTANCES;
use epx_types::{Fault, Memory};
use std::alloc::Global;
use std::rt::Files;

const MEMORY: &str = "what helps: --workers 1; or run the logs in parts: epx run over a part, then \
epx resume over its report and the next part";

const WRITE: &str =
    "standard output took no more: is the disk full, or has the reader closed the pipe?";

/// Explains that the output failed, or that a state could not be saved.
fn explain_write(alloc: Global, inputs: &Inputs<'_>) -> Result<String, Memory> {
    match inputs.unsaved() {
        Some(path) => {
            let path = show_text(alloc, path)?;
            made(format!(in alloc;
                "the state could not be saved as {path}, where all is as it was: \
is the disk full, may its folder not be written, or is this no plain file?"
            ))
        }
        None => made(String::from_str(alloc, WRITE)),
    }
}

/// Explains that the logs commit too many instances.
fn explain_instance_count(alloc: Global) -> Result<String, Memory> {
    made(format!(in alloc;
        "at most {MAX_INSTANCES} instances are allowed; run the logs in parts: epx run over a \
part, then epx resume over its report and the next part; what waits is in no report's store, so \
hand its lines in again with the next part"
    ))
}

/// Explains a fault in one line, without a line feed. None if there is nothing to add to the
/// fault's own text.
///
/// Opens the files that the command line names again, and reads those of logs whose lines are
/// bad, if their bytes were not kept.
pub fn explain_fault<R: Files>(
    rt: &R,
    alloc: Global,
    fault: Fault,
    inputs: &Inputs<'_>,
) -> Result<Option<String>, Memory>
    ensures { IfOk result (λ text. IfNone text ((line : ℕ) × (fault ≡ Fault.BadBase line))) }
{
    let text = match fault {
        Fault::Memory => made(String::from_str(alloc, MEMORY)),
        Fault::TooManyInstances => explain_instance_count(alloc),
        Fault::TooManyLogs => explain_log_count(alloc, inputs),
        Fault::LogTooLong { log } => explain_length(rt, alloc, inputs.numbered(log)),
        Fault::BadLine { place, why } => {
            explain_bad_line(rt, alloc, inputs.log(place.log), place.line, why)
        }
        Fault::Disagree { first, second, .. } => {
            explain_differences(rt, alloc, inputs, first, second)
        }
        Fault::Read { log } => explain_read(rt, alloc, inputs.numbered(log)),
        Fault::Write => explain_write(alloc, inputs),
        Fault::BadBase { line } => match inputs.first_input() {
            Some(input) => explain_base_line(rt, alloc, input, line),
            None => return Ok(None),
        },
    };
    Ok(Some(text?))
}
