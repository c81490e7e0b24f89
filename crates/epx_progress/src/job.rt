//! What a run reads and does, in the words of its line.

use epx_names::Task;

/// What a run reads and does.
#[derive(Clone, Copy, Debug)]
pub struct Job {
    task: Task,
    /// How many sources it reads.
    pub(crate) count: u64,
    /// How many bytes they have, if this is known before they are read.
    pub(crate) total: Option<u64>,
}

impl Job {
    /// A task over so many sources, which have so many bytes in all.
    pub fn new(task: Task, count: u64, total: Option<u64>) -> Job {
        Job { task, count, total }
    }

    /// What is done once all is read.
    pub(crate) fn doing(&self) -> &'static str {
        match self.task {
            Task::Run | Task::Resume | Task::Trace { .. } | Task::Replay => "executing",
            Task::Order | Task::Levels => "ordering",
            Task::Blockers | Task::Why(_) | Task::Path(_, _) => "searching",
            Task::Graph | Task::Around { .. } => "drawing",
            Task::Audit | Task::AuditAll => "auditing",
            Task::Check | Task::CheckPrefix | Task::Linear { .. } => "checking",
            Task::Verify => "verifying",
            Task::Compare => "comparing",
        }
    }

    /// What one of its sources is called.
    pub(crate) fn noun(&self) -> &'static str {
        if self.task.has_input() { "file" } else { "log" }
    }

    /// How many percent of all bytes so many are, if all are known.
    pub(crate) fn percent(&self, bytes: u64) -> Option<u64> {
        match self.total {
            Some(total) if total > 0 => Some((bytes.saturating_mul(100) / total).min(100)),
            _ => None,
        }
    }
}
