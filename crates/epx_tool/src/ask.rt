//! The views of logs: the texts other than the report.
ghost use Rattle.std.specs.Prelude.{◌≡◌};

use epx_names::{KeyName, Task};
use epx_types::Id;

/// Which view is asked for.
#[derive(Clone, Copy, Debug, PartialEq, Eq)]
pub enum Ask {
    /// The execution order, with the depth and the leader of each instance.
    Order,
    /// The execution order, with the conflict level of each instance's command.
    Levels,
    /// The missing instances, with how many instances each of them blocks.
    Blockers,
    /// Whether the instances are covered, and if not, the least two that are not.
    Audit,
    /// Whether the instances are covered, and if not, all pairs that would have to be related.
    AuditAll,
    /// The dependency graph, as a picture in DOT.
    Graph,
    /// The part of the dependency graph within some steps of an instance, as a picture in DOT.
    Around { id: Id, steps: u64 },
    /// Why an instance is executed where it is, or which missing instances it waits for.
    Why(Id),
    /// The first of the shortest paths of dependencies from one instance to another.
    Path(Id, Id),
    /// The executed commands that write a key, with its values before and after each; with `reads`
    /// also those that only read it.
    Trace { key: KeyName, reads: bool },
    /// What the logs say against each other. Bad lines and disagreements are lines of this view,
    /// and no faults.
    Compare,
}

impl From<Ask> for Task {
    ghost use Rattle.epx_tool.specs.TaskAnswers.{task_of};

    ghost from_gives = { λ ask task. task ≡ task_of ask };

    fn from(ask: Ask) -> Task {
        match ask {
            Ask::Order => Task::Order,
            Ask::Levels => Task::Levels,
            Ask::Blockers => Task::Blockers,
            Ask::Audit => Task::Audit,
            Ask::AuditAll => Task::AuditAll,
            Ask::Graph => Task::Graph,
            Ask::Around { id, steps } => Task::Around { id, steps },
            Ask::Why(id) => Task::Why(id),
            Ask::Path(from, to) => Task::Path(from, to),
            Ask::Trace { key, reads } => Task::Trace { key, reads },
            Ask::Compare => Task::Compare,
        }
    }
}
