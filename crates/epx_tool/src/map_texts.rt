//! The texts of a committed map.
ghost use Rattle.std.specs.Prelude.{◌≡◌, ◌≢◌, ◌≤◌, ◌↔◌, length, true, IfOk};
ghost use Rattle.epx_types.specs.Done.{remaining};
ghost use Rattle.epx_types.specs.Ids.{IsRising};
ghost use Rattle.epx_types.specs.Limits.{max_instances};
ghost use Rattle.epx_report.specs.ViewLines.{covered_line};
ghost use Rattle.epx_views.specs.OrderText.{IsOrderText};
ghost use Rattle.epx_views.specs.LevelText.{IsLevelText};
ghost use Rattle.epx_tool.specs.AuditText.{IsAuditText};
ghost use Rattle.epx_tool.specs.ResumedReport.{IsReportAfter};
ghost use Rattle.epx_tool.specs.Findings.{SomeWaits};
ghost use Rattle.epx_tool.specs.inner.MapQuestions.{FindsOf, IsTextOf};
ghost use Rattle.epx_blockers.specs.BlockerTexts.{IsBlockersText};
ghost use Rattle.epx_neighbours.specs.UncoveredTexts.{IsUncoveredText};
ghost use Rattle.epx_why.specs.WhyTexts.{IsWhyText};
ghost use Rattle.epx_trace.specs.TraceTexts.{IsTraceText};

use crate::client_calls::linear_of;
use crate::findings::{Answer, is_not_line, some_wait};
use crate::question::MapQuestion;
use crate::verdict::{prefix_verdict_of, said_verdict_of, verdict_of};
use epx_audit::audit;
use epx_blockers::blockers_text;
use epx_graph::{build, build_after, waiting};
use epx_merge::Merged;
use epx_names::KeyName;
use epx_neighbours::uncovered_text;
use epx_picture::{picture, picture_around};
use epx_ranking::order;
use epx_replay::{append_store_lines, replay};
use epx_trace::trace_text;
use epx_txn::Store;
use epx_types::{Id, Memory, Plan};
use epx_verify::replay_text;
use epx_views::{append_waiting, audit_line, begin_report, level_report, order_report};
use epx_why::{path_text, ready_text, unready_text};
use std::alloc::Global;
use std::random::RandomSource;
use std::thread::Threads;

/// Executes the remaining instances of a committed map from a store, and returns the report.
/// `done` has the done instances by increasing Id.
fn report_of<R: Threads + RandomSource + Sync>(
    rt: &R,
    alloc: Global,
    merged: &Merged,
    done: &[Id],
    store: Store,
    plan: Plan,
) -> Result<Answer, Memory>
    requires few { length merged.now ≤ max_instances }
    requires rising { IsRising done.now }
    ensures text { IfOk result (λ answer.
        IsReportAfter done.now store merged.now answer.text.items) }
    ensures found { IfOk result (λ answer. (answer.has_findings ≡ true)
        ↔ SomeWaits (remaining done.now merged.now)) }
{
    let graph = build_after(rt, alloc, merged, done, plan)?;
    let order = order(rt, alloc, merged, &graph)?;
    let waiters = waiting(alloc, &graph)?;
    let has_findings = some_wait(&waiters);
    drop(graph);
    let text = begin_report(alloc, done, &order, &waiters)?;
    let (store, mut text) = replay(rt, alloc, text, store, merged, order.ids(), plan)?;
    // The lines of the store take the room of the order.
    drop(order);
    append_waiting(alloc, &mut text, &waiters)?;
    let text = append_store_lines(rt, alloc, text, store, plan)?;
    Ok(Answer::new(text, has_findings))
}

/// The text of the execution order of a committed map.
fn order_of<R: Threads + Sync>(
    rt: &R,
    alloc: Global,
    merged: &Merged,
    plan: Plan,
) -> Result<Answer, Memory>
    ensures text { IfOk result (λ answer. IsOrderText merged.now answer.text.items) }
    ensures found { IfOk result (λ answer. (answer.has_findings ≡ true)
        ↔ SomeWaits merged.now) }
{
    let graph = build(rt, alloc, merged, plan)?;
    let order = order(rt, alloc, merged, &graph)?;
    let waiters = waiting(alloc, &graph)?;
    let has_findings = some_wait(&waiters);
    let text = order_report(alloc, &order, &waiters)?;
    Ok(Answer::new(text, has_findings))
}

/// The text of the conflict levels of a committed map, in execution order.
fn levels_of<R: Threads + Sync>(
    rt: &R,
    alloc: Global,
    merged: &Merged,
    plan: Plan,
) -> Result<Answer, Memory>
    ensures text { IfOk result (λ answer. IsLevelText merged.now answer.text.items) }
    ensures found { IfOk result (λ answer. (answer.has_findings ≡ true)
        ↔ SomeWaits merged.now) }
{
    let graph = build(rt, alloc, merged, plan)?;
    let order = order(rt, alloc, merged, &graph)?;
    let waiters = waiting(alloc, &graph)?;
    let has_findings = some_wait(&waiters);
    let text = level_report(alloc, merged, &order, &waiters)?;
    Ok(Answer::new(text, has_findings))
}

/// The text that says which missing instances of a committed map to recover first.
fn blockers_of<R: Threads + Sync>(
    rt: &R,
    alloc: Global,
    merged: &Merged,
    plan: Plan,
) -> Result<Answer, Memory>
    ensures text { IfOk result (λ answer. IsBlockersText merged.now answer.text.items) }
    ensures found { IfOk result (λ answer. (answer.has_findings ≡ true)
        ↔ SomeWaits merged.now) }
{
    let graph = build(rt, alloc, merged, plan)?;
    let waiters = waiting(alloc, &graph)?;
    let has_findings = some_wait(&waiters);
    let text = blockers_text(alloc, &graph)?;
    Ok(Answer::new(text, has_findings))
}

/// The text of the audit of a committed map.
fn audit_of<R: Threads + Sync>(
    rt: &R,
    alloc: Global,
    merged: &Merged,
    plan: Plan,
) -> Result<Answer, Memory>
    ensures text { IfOk result (λ answer. IsAuditText merged.now answer.text.items) }
    ensures found { IfOk result (λ answer. (answer.has_findings ≡ true)
        ↔ (answer.text.items ≢ covered_line)) }
{
    let graph = build(rt, alloc, merged, plan)?;
    let order = order(rt, alloc, merged, &graph)?;
    let found = audit(alloc, merged, &graph, &order)?;
    let text = audit_line(alloc, found)?;
    let has_findings = is_not_line(alloc, &text, "covered")?;
    Ok(Answer::new(text, has_findings))
}

/// The text that says which instances of a committed map would have to be related.
fn audit_all_of<R: Threads + Sync>(
    rt: &R,
    alloc: Global,
    merged: &Merged,
    plan: Plan,
) -> Result<Answer, Memory>
    ensures text { IfOk result (λ answer. IsUncoveredText merged.now answer.text.items) }
    ensures found { IfOk result (λ answer. (answer.has_findings ≡ true)
        ↔ (answer.text.items ≢ covered_line)) }
{
    let graph = build(rt, alloc, merged, plan)?;
    let order = order(rt, alloc, merged, &graph)?;
    let text = uncovered_text(alloc, merged, &graph, &order)?;
    let has_pairs = is_not_line(alloc, &text, "covered")?;
    Ok(Answer::new(text, has_pairs))
}

/// The text that says why an instance is executed where it is, or what it waits for.
fn why_of<R: Threads + Sync>(
    rt: &R,
    alloc: Global,
    merged: &Merged,
    id: Id,
    plan: Plan,
) -> Result<Vec<u8>, Memory>
    ensures { IfOk result (λ text. IsWhyText merged.now id text.items) }
{
    let graph = build(rt, alloc, merged, plan)?;
    if let Some(text) = unready_text(alloc, &graph, id)? {
        return Ok(text);
    }
    let order = order(rt, alloc, merged, &graph)?;
    ready_text(alloc, &order, id)
}

/// The text of the trace of a key.
fn trace_of<R: Threads + Sync>(
    rt: &R,
    alloc: Global,
    merged: &Merged,
    key: &KeyName,
    reads: bool,
    plan: Plan,
) -> Result<Vec<u8>, Memory>
    ensures { IfOk result (λ text. IsTraceText merged.now key.now.text.bytes reads text.items) }
{
    let graph = build(rt, alloc, merged, plan)?;
    let order = order(rt, alloc, merged, &graph)?;
    drop(graph);
    let key = key.key(alloc)?;
    trace_text(alloc, merged, &order, &key, reads)
}

/// The text that answers a question about a committed map, and whether it finds something.
pub(crate) fn text_of<R: Threads + RandomSource + Sync>(
    rt: &R,
    alloc: Global,
    question: MapQuestion,
    merged: &Merged,
    plan: Plan,
) -> Result<Answer, Memory>
    requires few { length merged.now ≤ max_instances }
    ensures text { IfOk result (λ answer. IsTextOf question merged.now answer.text.items) }
    ensures found { IfOk result (λ answer. (answer.has_findings ≡ true)
        ↔ FindsOf question merged.now answer.text.items) }
{
    match question {
        MapQuestion::Report => report_of(rt, alloc, merged, &[], Store::new(alloc), plan),
        MapQuestion::Resume(base) => {
            let (done, store) = base.into_parts();
            report_of(rt, alloc, merged, &done, store, plan)
        }
        MapQuestion::Order => order_of(rt, alloc, merged, plan),
        MapQuestion::Levels => levels_of(rt, alloc, merged, plan),
        MapQuestion::Blockers => blockers_of(rt, alloc, merged, plan),
        MapQuestion::Audit => audit_of(rt, alloc, merged, plan),
        MapQuestion::AuditAll => audit_all_of(rt, alloc, merged, plan),
        MapQuestion::Graph => {
            let graph = build(rt, alloc, merged, plan)?;
            Ok(Answer::new(picture(rt, alloc, merged, &graph, plan)?, false))
        }
        MapQuestion::Around { id, steps } => {
            let graph = build(rt, alloc, merged, plan)?;
            Ok(Answer::new(picture_around(alloc, merged, &graph, id, steps)?, false))
        }
        MapQuestion::Why(id) => Ok(Answer::new(why_of(rt, alloc, merged, id, plan)?, false)),
        MapQuestion::Path(from, to) => {
            let graph = build(rt, alloc, merged, plan)?;
            Ok(Answer::new(path_text(alloc, &graph, from, to)?, false))
        }
        MapQuestion::Trace { key, reads } => {
            Ok(Answer::new(trace_of(rt, alloc, merged, &key, reads, plan)?, false))
        }
        MapQuestion::Check(ids) => verdict_of(rt, alloc, merged, &ids, plan),
        MapQuestion::CheckPrefix(ids) => prefix_verdict_of(rt, alloc, merged, &ids, plan),
        MapQuestion::Replay(ids) => Ok(Answer::new(replay_text(alloc, merged, &ids)?, false)),
        MapQuestion::Verify(said) => said_verdict_of(rt, alloc, merged, &said, plan),
        MapQuestion::Linear(history) => linear_of(rt, alloc, merged, &history, plan),
    }
}
