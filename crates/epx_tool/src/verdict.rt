//! The text of the verdict on a checked list. It is one line.
ghost use Rattle.std.specs.Prelude.{◌≡◌, ◌≢◌, ◌↔◌, true, IfOk, MatchResult};
ghost use Rattle.epx_report.specs.ViewLines.{lawful_line};
ghost use Rattle.epx_tool.specs.Verdicts.{IsPrefixVerdict, IsSaidVerdict, IsVerdict};
ghost use Rattle.epx_tool.specs.Verdicts.{order_fault_text};

use crate::findings::{Answer, is_not_line};
use epx_graph::build;
use epx_merge::Merged;
use epx_ranking::{OrderFault, check_order, check_prefix};
use epx_report::{missing_line, name_line, position_line};
use epx_types::{Id, Memory, Plan};
use epx_verify::{Said, differences_text};
use std::alloc::Global;
use std::thread::Threads;

/// The line of a fault. Out of memory has no line.
fn fault_line(alloc: Global, fault: OrderFault) -> Result<Vec<u8>, Memory>
    ensures { IfOk result (λ text. (fault ≢ OrderFault.Memory)
        × (text.items ≡ order_fault_text fault)) }
{
    match fault {
        OrderFault::Memory => Err(Memory),
        OrderFault::Stranger { place } => Ok(position_line(alloc, "stranger", place)?),
        OrderFault::Repeat { place } => Ok(position_line(alloc, "repeat", place)?),
        OrderFault::Missing { id } => Ok(missing_line(alloc, id)?),
        OrderFault::Early { place } => Ok(position_line(alloc, "early", place)?),
        OrderFault::Sequence { place } => Ok(position_line(alloc, "sequence", place)?),
    }
}

/// The line of a verdict.
fn verdict_line(alloc: Global, found: Result<(), OrderFault>) -> Result<Vec<u8>, Memory>
    ensures { IfOk result (λ text. MatchResult found (λ _. text.items ≡ lawful_line)
        (λ fault. (fault ≢ OrderFault.Memory) × (text.items ≡ order_fault_text fault))) }
{
    match found {
        Ok(()) => Ok(name_line(alloc, "lawful")?),
        Err(fault) => fault_line(alloc, fault),
    }
}

/// The verdict on a list of instances, over a committed map.
pub(crate) fn verdict_of<R: Threads + Sync>(
    rt: &R,
    alloc: Global,
    merged: &Merged,
    ids: &[Id],
    plan: Plan,
) -> Result<Answer, Memory>
    ensures text { IfOk result (λ answer. IsVerdict merged.now ids.now answer.text.items) }
    ensures found { IfOk result (λ answer. (answer.has_findings ≡ true)
        ↔ (answer.text.items ≢ lawful_line)) }
{
    let graph = build(rt, alloc, merged, plan)?;
    let found = check_order(alloc, merged, &graph, ids);
    let text = verdict_line(alloc, found)?;
    let has_findings = is_not_line(alloc, &text, "lawful")?;
    Ok(Answer::new(text, has_findings))
}

/// The verdict on a list of instances as a prefix, over a committed map.
pub(crate) fn prefix_verdict_of<R: Threads + Sync>(
    rt: &R,
    alloc: Global,
    merged: &Merged,
    ids: &[Id],
    plan: Plan,
) -> Result<Answer, Memory>
    ensures text { IfOk result
        (λ answer. IsPrefixVerdict merged.now ids.now answer.text.items) }
    ensures found { IfOk result (λ answer. (answer.has_findings ≡ true)
        ↔ (answer.text.items ≢ lawful_line)) }
{
    let graph = build(rt, alloc, merged, plan)?;
    let found = check_prefix(alloc, merged, &graph, ids);
    let text = verdict_line(alloc, found)?;
    let has_findings = is_not_line(alloc, &text, "lawful")?;
    Ok(Answer::new(text, has_findings))
}

/// The verdict on what a replica said, over a committed map: that on the order of its replies as a
/// prefix. If the order is lawful, a line follows for each reply and each value that is wrong.
pub(crate) fn said_verdict_of<R: Threads + Sync>(
    rt: &R,
    alloc: Global,
    merged: &Merged,
    said: &Said,
    plan: Plan,
) -> Result<Answer, Memory>
    ensures text { IfOk result (λ answer. IsSaidVerdict merged.now said.now.replies.items
        said.now.store answer.text.items) }
    ensures found { IfOk result (λ answer. (answer.has_findings ≡ true)
        ↔ (answer.text.items ≢ lawful_line)) }
{
    let ids = said.ids(alloc)?;
    let verdict = prefix_verdict_of(rt, alloc, merged, &ids, plan)?;
    if verdict.has_findings {
        return Ok(verdict);
    }
    let mut text = verdict.text;
    text.extend_from_slice(&differences_text(alloc, merged, said)?)?;
    let has_findings = is_not_line(alloc, &text, "lawful")?;
    Ok(Answer::new(text, has_findings))
}
