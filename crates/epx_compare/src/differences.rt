//! The instances that lines commit differently.
ghost use Rattle.std.specs.Prelude.{◌≡◌, ◌<◌, ◌∷◌, ◌++◌, [], List, All, length, map, flat_map};
ghost use Rattle.std.specs.Prelude.{IfOk, OnOk, Some, slice_get, codes};
ghost use Rattle.serde_json.specs.Data.{string};
ghost use Rattle.serde_json.specs.View.{view};
ghost use Rattle.epx_types.specs.declared.id.Id.{Id};
ghost use Rattle.epx_types.specs.PlacedLines.{Placed};
ghost use Rattle.epx_merge.specs.LogLines.{BadLineAt};
ghost use Rattle.epx_report.specs.ReportLines.{array_of, data_of_number};
ghost use Rattle.epx_rows.specs.between.Rows.{row_of};
ghost use Rattle.epx_compare.specs.ComparisonLines.{place_data, group_data};
ghost use Rattle.epx_compare.specs.Comparisons.{difference_text};
ghost use Rattle.epx_compare.specs.Differences.{named_if};
ghost use Rattle.epx_compare.specs.inner.Catalogs.{IsCatalogOf};
ghost use Rattle.epx_compare.specs.inner.NumberedVersions.{place_at, names_of};

use crate::catalog::Catalog;
use crate::members::Members;
use epx_report::append_line;
use epx_rows::Rows;
use epx_types::{Id, Memory, Place};
use epx_versions::NotedLine;
use serde_json::{Value, json};
use std::alloc::{AllocError, Global};

/// A place, as `[L,N]`: log L and line N.
fn place_value(alloc: Global, place: Place) -> Result<Value, AllocError>
    ensures { IfOk result (λ v. view v ≡ place_data place) }
{
    let (log, line) = (place.log as u64, place.line as u64);
    json!(in alloc; [log, line])
}

/// The places of the rows at these indices.
fn group_value(alloc: Global, rows: &[NotedLine], indices: &[usize]) -> Result<Value, AllocError>
    requires { All (λ index. index < length rows.now) indices.now }
    ensures { IfOk result (λ v. view v ≡ group_data (map (place_at rows.now) indices.now)) }
{
    let mut places = Vec::with_capacity(alloc, indices.len())?;
    for index in indices {
        places.push(place_value(alloc, rows[*index].place)?)?;
    }
    Ok(Value::Array(places))
}

/// The group of each of these versions. `lines` has the indices of the rows of each version.
fn group_values(
    alloc: Global,
    rows: &[NotedLine],
    lines: &Rows,
    numbers: &[usize],
) -> Result<Vec<Value>, AllocError>
    requires numbers { All (λ v. v < length lines.now) numbers.now }
    requires lines { All (All (λ index. index < length rows.now)) lines.now }
    ensures { IfOk result (λ groups. map view groups.items
        ≡ map (λ v. group_data (map (place_at rows.now) (row_of lines.now v))) numbers.now) }
{
    let mut groups = Vec::with_capacity(alloc, numbers.len())?;
    for number in numbers {
        groups.push(group_value(alloc, rows, lines.row(*number))?)?;
    }
    Ok(groups)
}

/// Appends the name of a member if it differs.
fn push_name(
    alloc: Global,
    names: &mut Vec<Value>,
    differs: bool,
    name: &str,
) -> Result<(), AllocError>
    ensures { OnOk result (map view names.new.items
        ≡ map view names.old.items ++ map string (named_if differs name.now)) }
{
    if differs {
        names.push(json!(in alloc; name)?)?;
    }
    Ok(())
}

/// The names of the members that differ, in the order in which an answer has them.
fn member_names(alloc: Global, members: Members) -> Result<Vec<Value>, AllocError>
    ensures { IfOk result (λ names. map view names.items ≡ map string (names_of members)) }
{
    let mut names = Vec::new(alloc);
    push_name(alloc, &mut names, members.seq, "seq")?;
    push_name(alloc, &mut names, members.deps, "deps")?;
    push_name(alloc, &mut names, members.ops, "ops")?;
    Ok(names)
}

/// `["differs",r,i,[MEMBER,..],[GROUP,..]]`: the members in which lines of an instance differ, and
/// the groups of their places.
fn differs_value(
    alloc: Global,
    id: Id,
    names: Vec<Value>,
    groups: Vec<Value>,
) -> Result<Value, AllocError>
    ensures { IfOk result (λ v. view v ≡ array_of (string (codes "differs")
        ∷ data_of_number id.replica ∷ data_of_number id.number ∷ array_of (map view names.items)
        ∷ array_of (map view groups.items) ∷ [])) }
{
    let Id { replica, number } = id;
    json!(in alloc; ["differs", replica, number, Value::Array(names), Value::Array(groups)])
}

/// Appends a line if lines commit the instance at this position differently.
fn append_difference(
    alloc: Global,
    text: &mut Vec<u8>,
    catalog: &Catalog,
    position: usize,
) -> Result<(), Memory>
    requires catalog { (lines : List Placed) × (bad : List BadLineAt)
        × IsCatalogOf lines bad catalog.now }
    requires position { position < length catalog.now.ids }
    ensures { OnOk result ((lines : List Placed) (bad : List BadLineAt) (x : Id)
        → IsCatalogOf lines bad catalog.now → slice_get catalog.now.ids position ≡ Some x
        → text.new.items ≡ text.old.items ++ difference_text lines x) }
{
    let id = catalog.ids.ids()[position];
    let numbers = catalog.versions.row(position);
    let members = Members::differing(&catalog.noted.versions, numbers);
    let names = member_names(alloc, members)?;
    if names.is_empty() {
        return Ok(());
    }
    let groups = group_values(alloc, &catalog.noted.rows, &catalog.lines, numbers)?;
    let value = differs_value(alloc, id, names, groups)?;
    append_line(alloc, text, &value)
}

/// Appends a line for each instance that lines commit differently, by rising Id.
pub(crate) fn append_differences(
    alloc: Global,
    text: &mut Vec<u8>,
    catalog: &Catalog,
) -> Result<(), Memory>
    requires { (lines : List Placed) × (bad : List BadLineAt) × IsCatalogOf lines bad catalog.now }
    ensures { OnOk result ((lines : List Placed) (bad : List BadLineAt)
        → IsCatalogOf lines bad catalog.now
        → text.new.items ≡ text.old.items ++ flat_map (difference_text lines) catalog.now.ids) }
{
    for position in 0..catalog.ids.ids().len() {
        append_difference(alloc, text, catalog, position)?;
    }
    Ok(())
}
