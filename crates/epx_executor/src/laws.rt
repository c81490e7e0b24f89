//! Laws of executors. Each contract is a law; the functions call the laws that theirs rest on.
ghost use Rattle.epx_executor.specs.ExecutorLaws.{NewExecutorIsSound, CommittingStaysSound};
ghost use Rattle.epx_executor.specs.ExecutorLaws.{CommittedRepliesAreThoseOfTheWhole};
ghost use Rattle.epx_executor.specs.ExecutorLaws.{AllCommittedIsTheWhole, CommitLeavesNoneReady};
ghost use Rattle.epx_executor.specs.ExecutorLaws.{CommitResumesAllThatCame, NothingIsHeldBack};
ghost use Rattle.epx_executor.specs.ExecutorLaws.{NoneIsExecutedTwice, SameExecutorsCommitAlike};
ghost use Rattle.epx_executor.specs.ExecutorLaws.{RestartedExecutorHoldsTheSame};
ghost use Rattle.epx_executor.specs.HistoryLaws.{CallsExecuteALawfulPrefix};
ghost use Rattle.epx_executor.specs.HistoryLaws.{CallsReplyAsTheWhole};
ghost use Rattle.epx_executor.specs.HistoryLaws.{CallsLeaveWhatTheWholeLeaves};

use epx_laws::agreement::committed_map_is_unique;
use epx_laws::done::remaining_is_ready_alike;
use epx_laws::order::{execution_order_exists, execution_order_is_unique};
use epx_laws::resumed_runs::{
    all_done_is_the_whole, nothing_done_is_sound, resumed_replies_are_those_of_the_whole,
    resuming_stays_sound,
};

/// A new executor is sound for every map.
pub fn new_executor_is_sound()
    ensures { NewExecutorIsSound }
{
    nothing_done_is_sound();
}

/// An executor stays sound for each map that contains all that comes.
pub fn committing_stays_sound()
    ensures { CommittingStaysSound }
{
    resuming_stays_sound();
}

/// If such a map is covered, each reply is that of a run over the whole map.
pub fn committed_replies_are_those_of_the_whole()
    ensures { CommittedRepliesAreThoseOfTheWhole }
{
    resumed_replies_are_those_of_the_whole();
}

/// Once all its ready instances are done, the store is that of such a run.
pub fn all_committed_is_the_whole()
    ensures { AllCommittedIsTheWhole }
{
    all_done_is_the_whole();
}

/// After a commit no pending instance is done or ready.
pub fn commit_leaves_none_ready()
    ensures { CommitLeavesNoneReady }
{}

/// A commit is the resumed run over what is pending and what came.
pub fn commit_resumes_all_that_came()
    ensures { CommitResumesAllThatCame }
{}

/// A pending instance is not ready in a map of all that came.
pub fn nothing_is_held_back()
    ensures { NothingIsHeldBack }
{
    remaining_is_ready_alike();
}

/// An instance that a commit executes was not done before it.
pub fn none_is_executed_twice()
    ensures { NoneIsExecutedTwice }
{}

/// Executors that hold the same commit alike.
pub fn same_executors_commit_alike()
    ensures { SameExecutorsCommitAlike }
{
    committed_map_is_unique();
    execution_order_is_unique();
}

/// An executor that starts with what another one has done and stored, and commits what is pending
/// there, replies nothing and holds the same.
pub fn restarted_executor_holds_the_same()
    ensures { RestartedExecutorHoldsTheSame }
{}

/// All calls of a new executor together execute a prefix of a lawful order of each map that
/// contains what came.
pub fn calls_execute_a_lawful_prefix()
    ensures { CallsExecuteALawfulPrefix }
{
    new_executor_is_sound();
    committing_stays_sound();
    execution_order_exists();
}

/// In whatever order and batches the instances of a covered map come to a new executor, each reply
/// is that of a run over the whole map.
pub fn calls_reply_as_the_whole()
    ensures { CallsReplyAsTheWhole }
{
    new_executor_is_sound();
    committing_stays_sound();
    committed_replies_are_those_of_the_whole();
}

/// Once all have come, all ready ones are done, and the store is that of such a run.
pub fn calls_leave_what_the_whole_leaves()
    ensures { CallsLeaveWhatTheWholeLeaves }
{
    new_executor_is_sound();
    committing_stays_sound();
    nothing_is_held_back();
    all_committed_is_the_whole();
}
