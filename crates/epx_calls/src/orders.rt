//! Tests of small graphs whose components and orders were worked out by hand.
ghost use Rattle.epx_graph.specs.GraphOf.{IsGraphOfRest};
ghost use Rattle.std.specs.Prelude.{IfOk};

use crate::fixtures::{id, merged_of, plan, push_line};
use epx_graph::{Graph, build};
use epx_merge::Merged;
use epx_order::{OrderList, components, order};
use epx_types::{Id, Memory};
use std::alloc::Global;
use std::process::Abort;
use std::random::RandomSource;
use std::test::Fail;
use std::thread::Threads;

/// The map of a log and its graph.
fn map_and_graph<R: Abort + Threads + RandomSource + Sync>(
    rt: &R,
    alloc: Global,
    log: Vec<u8>,
) -> Result<(Merged, Graph), Fail>
    ensures { IfOk result (λ found. IsGraphOfRest found.0 found.1) }
{
    let mut logs = Vec::new(alloc);
    logs.push(log)?;
    let merged = merged_of(rt, alloc, &logs)?;
    let graph = build(rt, alloc, &merged, plan(rt))?;
    Ok((merged, graph))
}

/// What an order has for the instance at a position.
#[derive(Clone, Copy, Debug, PartialEq, Eq)]
struct Row {
    id: Id,
    leader: Id,
    depth: usize,
}

/// The row of an instance of replica 0.
fn row_of(number: u64, leader: u64, depth: usize) -> Row {
    Row {
        id: id(0, number),
        leader: id(0, leader),
        depth,
    }
}

/// The rows of an order, position by position.
fn rows(alloc: Global, order: &OrderList) -> Result<Vec<Row>, Memory> {
    let mut rows = Vec::new(alloc);
    for (position, of) in order.ids().iter().enumerate() {
        if position < order.len() {
            rows.push(Row {
                id: *of,
                leader: order.component_of(position),
                depth: order.depth_of(position),
            })?;
        }
    }
    Ok(rows)
}

/// The leader of each node.
fn leaders(alloc: Global, graph: &Graph) -> Result<Vec<usize>, Memory> {
    let map = components(alloc, graph)?;
    let mut leaders = Vec::new(alloc);
    for node in 0..map.len() {
        leaders.push(map.leader_of(node))?;
    }
    Ok(leaders)
}

/// Expects these leaders of the nodes of the log, and an order with these rows and `count`
/// components.
fn expect_order<R: Abort + Threads + RandomSource + Sync>(
    rt: &R,
    alloc: Global,
    log: Vec<u8>,
    lead: &[usize],
    count: usize,
    wanted: &[Row],
) -> Result<(), Fail> {
    let (merged, graph) = map_and_graph(rt, alloc, log)?;
    assert!(rt; leaders(alloc, &graph)?.as_slice() == lead);
    let order = order(rt, alloc, &merged, &graph)?;
    assert!(rt; order.len() == wanted.len());
    assert!(rt; order.is_empty() == wanted.is_empty());
    assert!(rt; order.component_count() == count);
    assert!(rt; rows(alloc, &order)?.as_slice() == wanted);
    Ok(())
}

/// Dependencies on instances of replica 0, as JSON.
fn deps_of(alloc: Global, numbers: &[u64]) -> Result<String, Memory> {
    let mut deps = String::new(alloc);
    for number in numbers {
        if !deps.is_empty() {
            deps.push_str(",")?;
        }
        deps.push_str(&format!(in alloc; "[0,{number}]")?)?;
    }
    Ok(deps)
}

/// Expects these leaders, and an order with these rows and `count` components, of a log of
/// instances 0.0, 0.1 and so on. `edges` has the numbers that each depends on.
fn expect_order_of<R: Abort + Threads + RandomSource + Sync>(
    rt: &R,
    alloc: Global,
    edges: &[&[u64]],
    lead: &[usize],
    count: usize,
    wanted: &[Row],
) -> Result<(), Fail> {
    let mut log = Vec::new(alloc);
    let mut number = 0;
    for targets in edges {
        let deps = deps_of(alloc, targets)?;
        push_line(alloc, &mut log, id(0, number), 1, deps.as_str())?;
        number = u64::saturating_add(number, 1);
    }
    expect_order(rt, alloc, log, lead, count, wanted)
}

// 0, 1 and 2 are a cycle with an edge to 3. 3 and 4 depend on each other. 5 has no edges.
#[test]
fn ring_over_a_pair(rt: HostRuntime) -> Result<(), Fail> {
    let edges: [&[u64]; 6] = [&[1], &[2, 3], &[0], &[4], &[3], &[]];
    let wanted = [
        row_of(3, 3, 0),
        row_of(4, 3, 0),
        row_of(5, 5, 0),
        row_of(0, 0, 1),
        row_of(1, 0, 1),
        row_of(2, 0, 1),
    ];
    expect_order_of(&rt, rt.alloc(), &edges, &[0, 0, 0, 3, 3, 5], 3, &wanted)
}

// 0, 1 and 2 are a cycle with an edge to 3. 3 and 4 depend on each other, and 4 on the missing 6.
// 5 depends on 0 and 3.
#[test]
fn ring_of_seven_nodes_that_waits(rt: HostRuntime) -> Result<(), Fail> {
    let edges: [&[u64]; 6] = [&[1], &[2, 3], &[0], &[4], &[3, 6], &[0, 3]];
    expect_order_of(&rt, rt.alloc(), &edges, &[0, 0, 0, 3, 3, 5, 6], 0, &[])
}

#[test]
fn reached_through_another_member(rt: HostRuntime) -> Result<(), Fail> {
    let mut log = Vec::new(rt.alloc());
    push_line(rt.alloc(), &mut log, id(0, 1), 1, "[1,1]")?;
    push_line(rt.alloc(), &mut log, id(1, 1), 2, "[0,1],[2,1]")?;
    push_line(rt.alloc(), &mut log, id(2, 1), 3, "")?;
    let (first, second, third) = (id(0, 1), id(1, 1), id(2, 1));
    let wanted = [
        Row {
            id: third,
            leader: third,
            depth: 0,
        },
        Row {
            id: first,
            leader: first,
            depth: 1,
        },
        Row {
            id: second,
            leader: first,
            depth: 1,
        },
    ];
    expect_order(&rt, rt.alloc(), log, &[0, 0, 2], 2, &wanted)
}
