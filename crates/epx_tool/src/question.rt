//! What tasks ask of a committed map.
ghost use Rattle.std.specs.Prelude.{◌≡◌, IfNone, IfSome, MatchResult, []};
ghost use Rattle.epx_names.specs.Tasks.{HasInput};
ghost use Rattle.epx_names.specs.declared.task.Task.TheVariants.{Compare};
ghost use Rattle.epx_tool.specs.inner.MapQuestions.{TaskAsks, IsInputFault};

use epx_linear::{History, read_history};
use epx_names::{KeyName, Task};
use epx_report::{Base, BaseFault, read_base_by, read_list};
use epx_types::{Id, Plan};
use epx_verify::{Said, read_said};
use std::alloc::Global;
use std::random::RandomSource;
use std::thread::Threads;

/// What is asked of a committed map. Inputs are read.
#[derive(Drop)]
pub(crate) enum MapQuestion {
    Report,
    /// The report that resumes from a base.
    Resume(Base),
    Order,
    Levels,
    Blockers,
    Audit,
    AuditAll,
    Graph,
    Around { id: Id, steps: u64 },
    Why(Id),
    Path(Id, Id),
    Trace { key: KeyName, reads: bool },
    /// The verdict on a list.
    Check(Vec<Id>),
    /// The verdict on a list that may lack ready instances at its end.
    CheckPrefix(Vec<Id>),
    /// The replies of a list and the store after them.
    Replay(Vec<Id>),
    /// What is wrong with what a replica said.
    Verify(Said),
    /// Where the calls of clients are not linear.
    Linear(History),
}

/// What a task without an input asks of the map that the logs commit. A comparison asks nothing of
/// it.
pub(crate) fn question_of(task: Task) -> Option<MapQuestion>
    requires { ¬ HasInput task }
    ensures some { IfSome result (TaskAsks task []) }
    ensures none { IfNone result (task ≡ Compare) }
{
    match task {
        Task::Run => Some(MapQuestion::Report),
        Task::Order => Some(MapQuestion::Order),
        Task::Levels => Some(MapQuestion::Levels),
        Task::Blockers => Some(MapQuestion::Blockers),
        Task::Audit => Some(MapQuestion::Audit),
        Task::AuditAll => Some(MapQuestion::AuditAll),
        Task::Graph => Some(MapQuestion::Graph),
        Task::Around { id, steps } => Some(MapQuestion::Around { id, steps }),
        Task::Why(id) => Some(MapQuestion::Why(id)),
        Task::Path(from, to) => Some(MapQuestion::Path(from, to)),
        Task::Trace { key, reads } => Some(MapQuestion::Trace { key, reads }),
        Task::Compare => None,
        Task::Resume | Task::Check | Task::CheckPrefix | Task::Replay | Task::Verify => None,
        Task::Linear { .. } => None,
    }
}

/// Reads the lines of the input of a task, and returns what the task asks of the map. The plan's
/// workers read a base or a history.
pub(crate) fn read_question<R: Threads + RandomSource + Sync>(
    rt: &R,
    alloc: Global,
    task: Task,
    input: &[u8],
    plan: Plan,
) -> Result<MapQuestion, BaseFault>
    requires { HasInput task }
    ensures { MatchResult result (TaskAsks task input.now) (IsInputFault task input.now) }
{
    match task {
        Task::Resume => Ok(MapQuestion::Resume(read_base_by(rt, alloc, input, plan)?)),
        Task::CheckPrefix => Ok(MapQuestion::CheckPrefix(read_list(alloc, input)?)),
        Task::Replay => Ok(MapQuestion::Replay(read_list(alloc, input)?)),
        Task::Verify => Ok(MapQuestion::Verify(read_said(alloc, input)?)),
        Task::Linear { skew } => {
            let history = read_history(rt, alloc, input, plan)?;
            Ok(MapQuestion::Linear(history.later_by(skew)))
        }
        _ => Ok(MapQuestion::Check(read_list(alloc, input)?)),
    }
}
