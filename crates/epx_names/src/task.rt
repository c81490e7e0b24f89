//! The tasks of the program.
ghost use Rattle.std.specs.Prelude.{◌≡◌, ◌↔◌, true};
ghost use Rattle.epx_names.specs.Tasks.{HasInput};

use crate::key_name::KeyName;
use epx_types::Id;

/// A task over logs. Each subcommand has one or two.
#[derive(Clone, Copy, Debug, PartialEq, Eq)]
pub enum Task {
    /// Write the report.
    Run,
    /// Write the execution order.
    Order,
    /// Write the conflict levels.
    Levels,
    /// Say how many instances each missing one blocks.
    Blockers,
    /// Write the dependency graph as a picture.
    Graph,
    /// Write the part of the dependency graph within some steps of an instance as a picture.
    Around { id: Id, steps: u64 },
    /// Execute what an earlier report, the base, has not executed, and write the report.
    Resume,
    /// Say whether the logs are covered.
    Audit,
    /// Say whether the logs are covered, and which instances would have to be related if not.
    AuditAll,
    /// Say whether a list of instances is a lawful order.
    Check,
    /// Say whether a list of instances is a prefix of a lawful order.
    CheckPrefix,
    /// Say whether the order, the replies and the store that a replica said are right.
    Verify,
    /// Say whether what clients saw is linear over the execution order. The clocks of two clients
    /// differ by at most `skew`, in the unit of the times of the history.
    Linear { skew: u64 },
    /// Execute a list of instances in its order, and write their replies and the store.
    Replay,
    /// Say what the logs say against each other.
    Compare,
    /// Say why an instance is executed where it is, or why it is not.
    Why(Id),
    /// Find the first of the shortest paths of dependencies from one instance to another.
    Path(Id, Id),
    /// List the executed commands that write a key, and with `reads` those that only read it.
    Trace { key: KeyName, reads: bool },
}

impl Task {
    /// Whether the task has an input besides the logs: a base, a list, what a replica said, or a
    /// history of calls.
    pub fn has_input(self) -> bool
        ensures { (result ≡ true) ↔ HasInput self }
    {
        matches!(
            self,
            Task::Resume
                | Task::Check
                | Task::CheckPrefix
                | Task::Verify
                | Task::Linear { .. }
                | Task::Replay
        )
    }
}
