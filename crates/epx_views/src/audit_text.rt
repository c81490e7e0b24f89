//! The text of an audit.
ghost use Rattle.std.specs.Prelude.{◌≡◌, IfOk, MatchOption};
ghost use Rattle.epx_report.specs.ViewLines.{covered_line, uncovered_line};

use epx_report::{name_line, uncovered_line};
use epx_types::{Id, Memory};
use std::alloc::Global;

/// The line of an audit: covered, or the least two instances that are not.
pub fn audit_line(alloc: Global, found: Option<(Id, Id)>) -> Result<Vec<u8>, Memory>
    ensures { IfOk result (λ text. MatchOption found (text.items ≡ covered_line)
        (λ pair. text.items ≡ uncovered_line pair.0 pair.1)) }
{
    match found {
        None => Ok(name_line(alloc, "covered")?),
        Some(pair) => Ok(uncovered_line(alloc, pair)?),
    }
}
