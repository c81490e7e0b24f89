//! The task of a case.
use epx_tool::{KeyName, Task, read_id};

/// The task that a command names, with the words after it. `check-prefix` is `check --prefix`,
/// `audit-all` is `audit --all`, `around` is `graph --around` with its steps, `path` is
/// `why --reaches`, `trace-reads` is `trace --reads`, and `linear-skew` is `linear --skew`.
pub(crate) fn asked_task(command: &str, rest: &str) -> Option<Task> {
    let mut words = rest.split_whitespace();
    match command {
        "run" => Some(Task::Run),
        "order" => Some(Task::Order),
        "levels" => Some(Task::Levels),
        "blockers" => Some(Task::Blockers),
        "graph" => Some(Task::Graph),
        "around" => Some(Task::Around {
            id: read_id(words.next()?)?,
            steps: words.next()?.parse().ok()?,
        }),
        "resume" => Some(Task::Resume),
        "audit" => Some(Task::Audit),
        "audit-all" => Some(Task::AuditAll),
        "check" => Some(Task::Check),
        "check-prefix" => Some(Task::CheckPrefix),
        "replay" => Some(Task::Replay),
        "verify" => Some(Task::Verify),
        "linear" => Some(Task::Linear { skew: 0 }),
        "linear-skew" => Some(Task::Linear {
            skew: words.next()?.parse().ok()?,
        }),
        "compare" => Some(Task::Compare),
        "why" => Some(Task::Why(read_id(words.next()?)?)),
        "path" => Some(Task::Path(read_id(words.next()?)?, read_id(words.next()?)?)),
        "trace" | "trace-reads" => {
            let key = KeyName::new(words.next()?)?;
            let reads = command == "trace-reads";
            Some(Task::Trace { key, reads })
        }
        _ => None,
    }
}
