//! How the program ends.
ghost use Rattle.std.specs.Prelude.{◌≡◌, ◌≢◌, true, false};
ghost use Rattle.std.specs.Io.KnownBytes.{Appends};
ghost use Rattle.epx_devices.specs.Transfers.{AppendsPrefix};
ghost use Rattle.epx_types.specs.Faults.{fault_status};
ghost use Rattle.epx_tool.specs.Findings.{found_of};
ghost use Rattle.epx_program.specs.Endings.{status_of};

use epx_tool::{Answer, Sink, write_out};
use epx_types::Fault;
use std::io::Eprint;

/// The exit status of an answer that finds something, with `--exit-code`.
const FOUND: u8 = 5;

/// Writes the line of a fault to standard error, and returns its exit status.
pub(crate) fn report_fault(rt: &impl Eprint, fault: Fault) -> u8
    ensures { result ≡ fault_status fault }
{
    // If standard error cannot be written, the status still reports the fault.
    let _printed = eprintln!(rt; "{fault}");
    fault.status()
}

/// The exit status of a task, whose answer may find something. Writes the line of a fault to
/// standard error.
pub(crate) fn report_task(rt: &impl Eprint, exit_code: bool, done: &Result<Answer, Fault>) -> u8
    ensures { result ≡ status_of exit_code (found_of done.now) }
{
    match done {
        Ok(answer) => {
            if exit_code && answer.has_findings {
                FOUND
            } else {
                0
            }
        }
        Err(fault) => report_fault(rt, *fault),
    }
}

/// Writes a text of status 0 to the output and any other to standard error. Returns the exit
/// status, which is 4 if the output failed.
pub(crate) fn print_text<R: Eprint, W: Sink>(rt: &R, text: &str, status: u8, output: &mut W) -> u8
    requires { W.model.has_failed output.old ≡ false }

    ensures refused { status ≢ 0 → (result ≡ status) × (output.new ≡ output.old) }

    ensures shown { status ≡ 0 → result ≡ 0
        → Appends (W.model.contents output.old) (W.model.contents output.new) text.now }
    ensures flushed { status ≡ 0 → result ≡ 0 → W.model.is_flushed output.new ≡ true }
    ensures prefix { status ≡ 0
        → AppendsPrefix (W.model.contents output.old) (W.model.contents output.new) text.now }

    ensures status { status ≡ 0 → result ≢ 0
        → (result ≡ 4) × (W.model.has_failed output.new ≡ true) }
    ensures failed { W.model.has_failed output.new ≡ true → result ≡ 4 }
{
    if status == 0 {
        return match write_out(text.as_bytes(), output) {
            Ok(()) => 0,
            Err(fault) => report_fault(rt, fault),
        };
    }
    let _printed = eprint!(rt; "{text}");
    status
}
