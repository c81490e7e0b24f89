//! The answers that clients got, against the replies of an execution.
ghost use Rattle.std.specs.Prelude.{◌≡◌, ◌≢◌, ◌<◌, List, map, length, position, AllPairs, IfOk};
ghost use Rattle.std.specs.Prelude.{IfSome};
ghost use Rattle.epx_types.specs.declared.id.Id.{Id};
ghost use Rattle.epx_types.specs.contracts.id.IdPartialEq.TheImpl as id_eq;
ghost use Rattle.epx_linear.specs.CallAnswers.{IsAnswerCheck, AreAnswerChecks};

use crate::client_call::ClientCall;
use epx_seed::Seed;
use epx_types::{Command, Id, Memory, Reply};
use indexmap::IndexSet;
use std::alloc::Global;

/// What the answer of a call is, over an execution.
#[derive(Clone, Copy, Debug, PartialEq, Eq)]
pub enum AnswerCheck {
    /// The reply of its instance, or no answer came.
    Same,
    /// The call returned, and its instance is not executed.
    Lost,
    /// Not the reply of its instance.
    Other,
}

/// Returns a table of the Ids of commands, in their order.
fn positions_of(
    alloc: Global,
    seed: Seed,
    commands: &[Command],
) -> Result<IndexSet<Id, Seed>, Memory>
    requires { AllPairs (λ x y. x ≢ y) (map (λ c. c.id) commands.now) }
    ensures { IfOk result (λ ids. ids.keys ≡ map (λ c. c.id) commands.now) }
{
    let mut ids = IndexSet::with_hasher(alloc, seed);
    for command in commands {
        ids.insert(command.id)?;
    }
    Ok(ids)
}

/// Compares the answer of a call with the reply of its instance, which is at this position.
fn check_answer(call: &ClientCall, place: Option<usize>, replies: &[Reply]) -> AnswerCheck
    requires { IfSome place (λ p. p < length replies.now) }
    ensures { (ids : List Id) → AllPairs (λ x y. x ≢ y) ids
        → place ≡ position (id_eq.eq-value.it call.now.id) ids
        → IsAnswerCheck ids replies.now call.now result }
{
    let Some(position) = place else {
        return match call.returned {
            Some(_) => AnswerCheck::Lost,
            None => AnswerCheck::Same,
        };
    };
    match &call.answer {
        Some(answer) => {
            if *answer == replies[position] {
                AnswerCheck::Same
            } else {
                AnswerCheck::Other
            }
        }
        None => AnswerCheck::Same,
    }
}

/// Returns what the answer of each call is, over commands that were executed with these replies.
/// The table of their Ids hashes with the seed.
pub fn check_answers(
    alloc: Global,
    seed: Seed,
    commands: &[Command],
    replies: &[Reply],
    history: &[ClientCall],
) -> Result<Vec<AnswerCheck>, Memory>
    requires once { AllPairs (λ x y. x ≢ y) (map (λ c. c.id) commands.now) }
    requires replies { length replies.now ≡ length commands.now }
    ensures { IfOk result (λ found. AreAnswerChecks (map (λ c. c.id) commands.now) replies.now
        history.now found.items) }
{
    let ids = positions_of(alloc, seed, commands)?;
    let mut found = Vec::with_capacity(alloc, history.len())?;
    for call in history {
        found.push(check_answer(call, ids.get_index_of(&call.id), replies))?;
    }
    Ok(found)
}
