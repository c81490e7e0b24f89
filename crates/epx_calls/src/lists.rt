//! Tests of lists of instances, checked against the lawful orders of small maps.
ghost use Rattle.epx_graph.specs.GraphOf.{IsGraphOf};
ghost use Rattle.std.specs.Prelude.{IfOk};

use crate::fixtures::{id, merged_of, plan, push_line};
use epx_graph::{Graph, build};
use epx_merge::Merged;
use epx_order::{OrderFault, check_order};
use epx_types::{Id, Memory};
use std::alloc::Global;
use std::process::Abort;
use std::random::RandomSource;
use std::test::Fail;
use std::thread::Threads;

/// The map of a log and its graph.
fn map_and_graph<R: Abort + Threads + RandomSource + Sync>(
    rt: &R,
    alloc: Global,
    log: Vec<u8>,
) -> Result<(Merged, Graph), Fail>
    ensures { IfOk result (λ found. IsGraphOf found.0 found.1) }
{
    let mut logs = Vec::new(alloc);
    logs.push(log)?;
    let merged = merged_of(rt, alloc, &logs)?;
    let graph = build(rt, alloc, &merged, plan(rt))?;
    Ok((merged, graph))
}

/// The fault of a list, if it has one.
fn fault_of(
    alloc: Global,
    merged: &Merged,
    graph: &Graph,
    ids: &[Id],
) -> Result<Option<OrderFault>, Memory>
    requires { IsGraphOf merged.now graph.now }
{
    match check_order(alloc, merged, graph, ids) {
        Ok(()) => Ok(None),
        Err(OrderFault::Memory) => Err(Memory),
        Err(fault) => Ok(Some(fault)),
    }
}

// 0.1 reaches 2.1 through 1.1, a member of its own component.
#[test]
fn lists_of_a_component_and_what_it_reaches(rt: HostRuntime) -> Result<(), Fail> {
    let alloc = rt.alloc();
    let mut log = Vec::new(alloc);
    push_line(alloc, &mut log, id(0, 1), 1, "[1,1]")?;
    push_line(alloc, &mut log, id(1, 1), 2, "[0,1],[2,1]")?;
    push_line(alloc, &mut log, id(2, 1), 3, "")?;
    let (merged, graph) = map_and_graph(&rt, alloc, log)?;
    let (first, second, third) = (id(0, 1), id(1, 1), id(2, 1));
    let cases: [(&[Id], Option<OrderFault>); 8] = [
        (&[third, first, second], None),
        (
            &[first, third, second],
            Some(OrderFault::Early { place: 0 }),
        ),
        (
            &[third, second, first],
            Some(OrderFault::Sequence { place: 2 }),
        ),
        (&[third, first], Some(OrderFault::Missing { id: second })),
        (&[], Some(OrderFault::Missing { id: first })),
        (
            &[third, id(9, 9), third],
            Some(OrderFault::Stranger { place: 1 }),
        ),
        (&[third, third], Some(OrderFault::Repeat { place: 1 })),
        (
            &[third, third, id(9, 9)],
            Some(OrderFault::Repeat { place: 1 }),
        ),
    ];
    for (list, wanted) in cases {
        assert!(rt; fault_of(alloc, &merged, &graph, list)? == wanted);
    }
    Ok(())
}
