//! The laws of followers. Each contract is a law; the functions call the laws that theirs rest on.
ghost use Rattle.epx_follow.specs.FollowerLaws.{BatchIsACommit, CutStreamsGoOn};
ghost use Rattle.epx_follow.specs.FollowerLaws.{FollowedLogsAreCommits, FollowerAfterHoldsTheSame};
ghost use Rattle.epx_follow.specs.FollowerLaws.{SameFollowersFollowAlike};
ghost use Rattle.epx_follow.specs.PlaceOrderLaws.{LinesStayInOrder, FirstLinesAreEarliest};
ghost use Rattle.epx_follow.specs.PlaceOrderLaws.{RefusedBatchIsARefusedMerge};

use epx_executor::laws::same_executors_commit_alike;
use epx_laws::agreement::committed_map_is_unique;
use epx_laws::reaching::waiting_list_is_unique;

/// The end of a batch is a commit of the executor that the follower holds.
pub fn batch_is_a_commit()
    ensures { BatchIsACommit }
{}

/// Following logs to their ends is calls of an executor.
pub fn followed_logs_are_commits()
    ensures { FollowedLogsAreCommits }
{}

/// A follower that goes on from an executor holds what the executor holds.
pub fn follower_after_holds_the_same()
    ensures { FollowerAfterHoldsTheSame }
{}

/// Followers whose executors hold the same follow logs alike.
pub fn same_followers_follow_alike()
    ensures { SameFollowersFollowAlike }
{
    committed_map_is_unique();
    waiting_list_is_unique();
    same_executors_commit_alike();
}

/// Logs can be cut where no batch is open: a follower that holds the same goes on as if there were
/// no cut.
pub fn cut_streams_go_on()
    ensures { CutStreamsGoOn }
{
    committed_map_is_unique();
    waiting_list_is_unique();
    same_executors_commit_alike();
}

/// A follower that started at the beginning of its logs holds lines in the order of their places.
pub fn lines_stay_in_order()
    ensures { LinesStayInOrder }
{}

/// Where lines are held in the order of their places, the first line of an instance is the
/// earliest one.
pub fn first_lines_are_earliest()
    ensures { FirstLinesAreEarliest }
{}

/// Where lines are held in the order of their places, a batch is refused as the merge of its lines
/// is.
pub fn refused_batch_is_a_refused_merge()
    ensures { RefusedBatchIsARefusedMerge }
{}
