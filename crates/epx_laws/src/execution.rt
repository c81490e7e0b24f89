//! Laws of commands executed one after another.
ghost use Rattle.epx_laws.specs.ExecutionLaws.{OneCommandExecutes, EachCommandReplies};
ghost use Rattle.epx_laws.specs.ExecutionLaws.{ExecutionAppends, RearrangementsExecuteAlike};

/// Executing a list of one command is executing that command.
pub fn one_command_executes()
    ensures { OneCommandExecutes }
{}

/// Each command has a reply.
pub fn each_command_replies()
    ensures { EachCommandReplies }
{}

/// Executing two lists one after the other is executing their concatenation.
pub fn execution_appends()
    ensures { ExecutionAppends }
{}

/// A rearrangement that keeps the order of any two commands that conflict leaves the same
/// contents, and each command has the same reply.
pub fn rearrangements_execute_alike()
    ensures { RearrangementsExecuteAlike }
{}
