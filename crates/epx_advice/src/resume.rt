//! Explains which instances a resumed run does not know.
use crate::base_waiters::read_waiters;
use epx_bad_lines::found;
use epx_committed::Merged;
use epx_types::{Id, Memory};
use std::alloc::Global;

/// How many of the instances no log commits, and the first of these.
fn count_lost(merged: &Merged, waiters: &[Id]) -> (usize, Option<Id>) {
    let mut count: usize = 0;
    let mut first = None;
    for id in waiters {
        if merged.get(*id).is_some() {
            continue;
        }
        count = count.saturating_add(1);
        if first.is_none() {
            first = Some(*id);
        }
    }
    (count, first)
}

/// Explains in one line, without a line feed, that instances wait in a base and are in no log: a
/// base does not have their lines, so the resumed report does not name them. None if there are
/// none.
///
/// `merged` is the map of the logs, and `base` has the bytes of BASE. Takes n log n time.
pub fn explain_resume(
    alloc: Global,
    merged: &Merged,
    base: &[u8],
) -> Result<Option<String>, Memory> {
    let waiters = read_waiters(alloc, base)?;
    let (count, first) = count_lost(merged, &waiters);
    let Some(first) = first else {
        return Ok(None);
    };
    if count == 1 {
        return found(format!(in alloc;
            "{first} waits in BASE and is in no LOG, so the report has nothing of it: \
name a LOG with its line"
        ));
    }
    found(format!(in alloc;
        "{count} instances wait in BASE and are in no LOG, {first} first, so the report has \
nothing of them: name a LOG with their lines"
    ))
}
