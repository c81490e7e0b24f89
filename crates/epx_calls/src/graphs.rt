//! Tests of the graphs of small logs, and of the instances that wait.
ghost use Rattle.epx_types.specs.Ids.{IsRising};

use crate::fixtures::{id, logs_of, merged_of, plan, push_line};
use epx_graph::{Graph, Waiter, build, build_after, waiting};
use epx_types::Id;
use epx_types::entry::is_rising;
use std::alloc::Global;
use std::process::Abort;
use std::random::RandomSource;
use std::test::Fail;
use std::thread::Threads;

fn waiter(of: Id, missing: Id) -> Waiter {
    Waiter { id: of, missing }
}

/// The graph of logs with these texts.
fn graph_of_texts<R: Abort + Threads + RandomSource + Sync>(
    rt: &R,
    alloc: Global,
    texts: &[&str],
) -> Result<Graph, Fail> {
    let merged = merged_of(rt, alloc, &logs_of(alloc, texts)?)?;
    Ok(build(rt, alloc, &merged, plan(rt))?)
}

/// The graph of the remaining instances of a log, after some are done.
fn graph_after<R: Abort + Threads + RandomSource + Sync>(
    rt: &R,
    alloc: Global,
    text: &str,
    done: &[Id],
) -> Result<Graph, Fail>
    requires { IsRising done.now }
{
    let merged = merged_of(rt, alloc, &logs_of(alloc, &[text])?)?;
    Ok(build_after(rt, alloc, &merged, done, plan(rt))?)
}

/// Expects these nodes, of which the first `committed` are committed.
fn expect_nodes(rt: &impl Abort, graph: &Graph, wanted: &[Id], committed: usize) {
    assert!(rt; graph.len() == wanted.len());
    assert!(rt; graph.is_empty() == wanted.is_empty());
    assert!(rt; graph.committed_len() == committed);
    for (node, wanted) in wanted.iter().enumerate() {
        assert!(rt; node < graph.len());
        assert!(rt; graph.node(*wanted) == Some(node));
        assert!(rt; graph.id(node) == *wanted);
        assert!(rt; graph.is_committed(node) == (node < committed));
    }
}

/// Expects these edges of a node.
fn expect_edges(rt: &impl Abort, graph: &Graph, node: usize, wanted: &[usize]) {
    assert!(rt; node < graph.len());
    assert!(rt; graph.edges(node) == wanted);
}

/// Expects these waiting instances, each with the missing instance it waits for.
fn expect_waiters(
    rt: &impl Abort,
    alloc: Global,
    graph: &Graph,
    wanted: &[Waiter],
) -> Result<(), Fail> {
    assert!(rt; waiting(alloc, graph)?.as_slice() == wanted);
    Ok(())
}

/// 2.1 depends on 2.0, and 2.0 on 1.3 and 0.8, which are missing.
const TWO_MISSING: &str = r#"{"r":2,"i":1,"seq":2,"deps":[[2,0]],"ops":[]}
{"r":2,"i":0,"seq":1,"deps":[[1,3],[0,8]],"ops":[]}"#;

#[test]
fn least_missing(rt: HostRuntime) -> Result<(), Fail> {
    let graph = graph_of_texts(&rt, rt.alloc(), &[TWO_MISSING])?;
    expect_nodes(&rt, &graph, &[id(2, 0), id(2, 1), id(0, 8), id(1, 3)], 2);
    assert!(rt; graph.node(id(2, 2)).is_none() && graph.node(id(0, 7)).is_none());
    expect_edges(&rt, &graph, 0, &[2, 3]);
    expect_edges(&rt, &graph, 1, &[0]);
    expect_edges(&rt, &graph, 2, &[]);
    let least = id(0, 8);
    let waiters = [waiter(id(2, 0), least), waiter(id(2, 1), least)];
    expect_waiters(&rt, rt.alloc(), &graph, &waiters)
}

#[test]
fn a_done_instance_is_not_missing(rt: HostRuntime) -> Result<(), Fail> {
    let graph = graph_after(&rt, rt.alloc(), TWO_MISSING, &[id(0, 8)])?;
    expect_nodes(&rt, &graph, &[id(2, 0), id(2, 1), id(1, 3)], 2);
    assert!(rt; graph.node(id(0, 8)).is_none());
    expect_edges(&rt, &graph, 0, &[2]);
    expect_edges(&rt, &graph, 1, &[0]);
    expect_edges(&rt, &graph, 2, &[]);
    let least = id(1, 3);
    let waiters = [waiter(id(2, 0), least), waiter(id(2, 1), least)];
    expect_waiters(&rt, rt.alloc(), &graph, &waiters)
}

/// A chain of `count` instances. One of them also depends on a missing instance.
fn chain(alloc: Global, count: u64, lacking: u64) -> Result<Vec<u8>, Fail> {
    let mut log = Vec::new(alloc);
    push_line(alloc, &mut log, id(0, 0), 1, "")?;
    for number in 1..count {
        let before = number - 1;
        let more = if number == lacking { ",[1,7]" } else { "" };
        let deps = format!(in alloc; "[0,{before}]{more}")?;
        push_line(alloc, &mut log, id(0, number), 1, &deps)?;
    }
    Ok(log)
}

/// The remaining instances of 10,000, of which those below 5,000 are done.
#[test]
fn many_instances_are_left(rt: HostRuntime) -> Result<(), Fail> {
    let mut logs = Vec::new(rt.alloc());
    logs.push(chain(rt.alloc(), 10_000, 7_000)?)?;
    let merged = merged_of(&rt, rt.alloc(), &logs)?;
    let mut done = Vec::new(rt.alloc());
    for number in 0..5_000 {
        done.push(id(0, number))?;
    }
    let done = done.as_slice();
    assert!(rt; is_rising(done));
    let graph = build_after(&rt, rt.alloc(), &merged, done, plan(&rt))?;
    assert!(rt; graph.len() == 5_001);
    assert!(rt; graph.committed_len() == 5_000);
    expect_edges(&rt, &graph, 0, &[]);
    for node in 1..5_000 {
        if node == 2_000 {
            expect_edges(&rt, &graph, node, &[1_999, 5_000]);
        } else {
            expect_edges(&rt, &graph, node, &[node - 1]);
        }
    }
    assert!(rt; waiting(rt.alloc(), &graph)?.len() == 3_000);
    Ok(())
}
