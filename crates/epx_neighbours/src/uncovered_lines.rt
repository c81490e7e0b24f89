//! Writes the lines about neighbours that are not related: JSON (RFC 8259) in compact form, each
//! ended by a line feed.
ghost use Rattle.std.specs.Prelude.{◌≡◌, ◌++◌, ◌<◌, false, flat_map, length, map, All};
ghost use Rattle.std.specs.Prelude.{IfOk, OnOk};
ghost use Rattle.serde_json.specs.View.{view};
ghost use Rattle.serde_json.specs.Written.{has_float};
ghost use Rattle.epx_report.specs.ReportLines.{array_of};
ghost use Rattle.epx_neighbours.specs.UncoveredLines.{pair_data, pair_line, pairs_text};
ghost use Rattle.epx_neighbours.specs.inner.UncoveredRows.{pair_of};

use crate::uncovered_row::UncoveredRow;
use epx_report::{append_line, name_line};
use epx_types::{Id, Key, Memory};
use serde_json::{Value, json};
use std::alloc::{AllocError, Global};

/// The array of a pair: `["uncovered",r,i,r2,i2,k]`.
fn pair_value(alloc: Global, before: Id, after: Id, key: &Key) -> Result<Value, AllocError>
    ensures data { IfOk result (λ v. view v ≡ array_of
        (pair_data (record { before = before; after = after; key = key.now }))) }
    ensures whole { IfOk result (λ v. has_float (view v) ≡ false) }
{
    let Id { replica, number } = before;
    let (other_replica, other_number) = (after.replica, after.number);
    let text = key.text();
    json!(in alloc; ["uncovered", replica, number, other_replica, other_number, text])
}

/// Appends a line for each of the rows.
fn append_rows(
    alloc: Global,
    text: &mut Vec<u8>,
    rows: &[UncoveredRow],
    keys: &[&Key],
) -> Result<(), Memory>
    requires { All (λ r. r.key < length keys.now) rows.now }
    ensures { OnOk result (text.new.items ≡ text.old.items
        ++ flat_map (λ r. pair_line (pair_of (map (λ k. k.now) keys.now) r)) rows.now) }
{
    for row in rows {
        let key = keys[row.key];
        append_line(alloc, text, &pair_value(alloc, row.before, row.after, key)?)?;
    }
    Ok(())
}

/// The lines of the rows, or the line `covered` if there is none.
pub(crate) fn rows_text(
    alloc: Global,
    rows: &[UncoveredRow],
    keys: &[&Key],
) -> Result<Vec<u8>, Memory>
    requires { All (λ r. r.key < length keys.now) rows.now }
    ensures { IfOk result (λ text. text.items
        ≡ pairs_text (map (pair_of (map (λ k. k.now) keys.now)) rows.now)) }
{
    if rows.is_empty() {
        return Ok(name_line(alloc, "covered")?);
    }
    let mut text = Vec::new(alloc);
    append_rows(alloc, &mut text, rows, keys)?;
    Ok(text)
}
