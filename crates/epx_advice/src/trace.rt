//! Explains why a trace has no line.
ghost use Rattle.std.specs.Prelude.{◌≡◌, ◌≢◌, [], IfOk, IfNone, IfSome};

use crate::key_users::{KeyUsers, count_key_users};
use epx_bad_lines::made;
use epx_committed::Merged;
use epx_types::{Memory, Plan};
use std::alloc::Global;
use std::fs;
use std::rt::Files;
use std::thread::Threads;

/// Whether a path leads to a file. False also where that cannot be found out.
fn is_file<R: Files>(rt: &R, path: &str) -> bool {
    match fs::metadata(rt, path) {
        Ok(metadata) => metadata.is_file(),
        Err(_) => false,
    }
}

/// Explains that no command has the key.
fn explain_unknown<R: Files>(rt: &R, alloc: Global, key: &str) -> Result<String, Memory> {
    if is_file(rt, key) {
        return made(format!(in alloc;
            "no command has the key {key:?}, which is the name of a file: was KEY forgotten? \
epx trace KEY LOG.."
        ));
    }
    made(format!(in alloc; "no command has the key {key:?}"))
}

/// Explains that no command with the key writes it, or that all of them wait.
fn explain_users(alloc: Global, key: &str, users: KeyUsers) -> Result<String, Memory> {
    let KeyUsers {
        executed,
        waiting,
        first_waiting,
    } = users;
    match first_waiting {
        Some(id) if executed == 0 => made(format!(in alloc;
            "no executed command has the key {key:?}; commands that have it and wait: {waiting}, \
{id} first"
        )),
        _ => made(format!(in alloc;
            "no executed command writes the key {key:?}; commands that read it: {executed}, \
which --reads lists"
        )),
    }
}

/// Explains in one line, without a line feed, why a trace is empty. None if it has a line.
///
/// `merged` is the map of the logs, and `text` the answer of `epx trace KEY`. The file system is
/// asked whether the key is the name of a file. Takes n log n time.
pub fn explain_trace<R: Files + Threads + Sync>(
    rt: &R,
    alloc: Global,
    merged: &Merged,
    key: &str,
    text: &[u8],
    plan: Plan,
) -> Result<Option<String>, Memory>
    ensures some { IfOk result (λ line. IfSome line (λ _. text.now ≡ [])) }
    ensures none { IfOk result (λ line. IfNone line (text.now ≢ [])) }
{
    if !text.is_empty() {
        return Ok(None);
    }
    let users = count_key_users(rt, alloc, merged, key, plan)?;
    if users.executed == 0 && users.waiting == 0 {
        return Ok(Some(explain_unknown(rt, alloc, key)?));
    }
    Ok(Some(explain_users(alloc, key, users)?))
}
