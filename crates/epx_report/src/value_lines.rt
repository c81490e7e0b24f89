//! Writes the line of a JSON value (RFC 8259): its compact form, ended by a line feed.
ghost use Rattle.std.specs.Prelude.{◌≡◌, ◌++◌, ◌∷◌, [], false, OnOk};
ghost use Rattle.serde_json.specs.View.{view};
ghost use Rattle.serde_json.specs.Written.{has_float, compact_text};
ghost use Rattle.epx_report.specs.ReportLines.{line_feed};

use crate::report_lines::LINE_FEED;
use epx_types::Memory;
use serde_json::Value;
use std::alloc::Global;

/// Appends the line of a value. The only error is out of memory.
pub fn append_line(alloc: Global, text: &mut Vec<u8>, value: &Value) -> Result<(), Memory>
    requires { has_float (view value.now) ≡ false }
    ensures { OnOk result (text.new.items
        ≡ text.old.items ++ (compact_text (view value.now) ++ line_feed ∷ [])) }
{
    text.extend_from_slice(&value.to_vec(alloc)?)?;
    text.push(LINE_FEED)?;
    Ok(())
}
