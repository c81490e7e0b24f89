//! Explains a bad list of dependencies.
use crate::shown::show_value;
use crate::texts::found;
use epx_lines::read_id;
use epx_types::Memory;
use epx_types::entry::MAX_DEPS;
use serde_json::Value;
use std::alloc::Global;

/// Whether the list has a number for each replica, or null, as replicas keep their dependencies.
fn has_number_a_replica(deps: &[Value]) -> bool {
    for dep in deps {
        if !dep.is_number() && !dep.is_null() {
            return false;
        }
    }
    !deps.is_empty()
}

/// Explains the first element that is no Id.
fn explain_element(alloc: Global, deps: &[Value]) -> Result<Option<String>, Memory> {
    for (index, dep) in deps.iter().enumerate() {
        if read_id(dep).is_none() {
            let shown = show_value(alloc, dep)?;
            return found(format!(in alloc;
                "deps[{index}] is {shown}, and must be [replica,number]: whole numbers up to 255 \
and up to 18446744073709551615"
            ));
        }
    }
    Ok(None)
}

/// Explains a list that has no pairs, too many elements, or an element that is no Id. None if it
/// is good.
fn explain_list(alloc: Global, deps: &[Value]) -> Result<Option<String>, Memory> {
    if has_number_a_replica(deps) {
        return found(String::from_str(
            alloc,
            "deps has no pairs: one number or null a replica? contrib/expand writes pairs, as \
docs/INPUT.md says",
        ));
    }
    let count = deps.len();
    if count > MAX_DEPS {
        return found(format!(in alloc;
            "deps has {count} elements, and at most {MAX_DEPS} are allowed"
        ));
    }
    explain_element(alloc, deps)
}

/// Explains the member `deps`.
pub fn explain_deps(alloc: Global, object: &Value) -> Result<Option<String>, Memory> {
    let Some(value) = object.get("deps") else {
        return found(String::from_str(
            alloc,
            "\"deps\" is missing: it must be a list of [replica,number]",
        ));
    };
    match value.as_array() {
        Some(deps) => explain_list(alloc, deps),
        None => {
            let shown = show_value(alloc, value)?;
            found(format!(in alloc; "deps is {shown}, and must be a list of [replica,number]"))
        }
    }
}
