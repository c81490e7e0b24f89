//! The lines of the bad lines.
ghost use Rattle.std.specs.Prelude.{◌≡◌, ◌++◌, map, OnOk};
ghost use Rattle.epx_compare.specs.Comparisons.{bad_text};
ghost use Rattle.epx_versions.specs.between.NotedRows.{bad_line_at};

use crate::comparison_lines::append_bad;
use epx_types::Memory;
use epx_versions::NotedBadLine;
use std::alloc::Global;

/// Appends a line for each bad line.
pub(crate) fn append_bad_lines(
    alloc: Global,
    text: &mut Vec<u8>,
    bad: &[NotedBadLine],
) -> Result<(), Memory>
    ensures { OnOk result (text.new.items
        ≡ text.old.items ++ bad_text (map bad_line_at bad.now)) }
{
    for line in bad {
        append_bad(alloc, text, *line)?;
    }
    Ok(())
}
