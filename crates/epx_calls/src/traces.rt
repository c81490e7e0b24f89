//! Tests of traces of a key that were worked out by hand.
use crate::effects::{expect_pairs, store_with};
use crate::fixtures::{id, key, logs_of, merged_of, plan};
use epx_graph::build;
use epx_order::order;
use epx_trace::{Touch, trace_of, trace_text};
use epx_types::{Command, Memory, Op};
use std::alloc::Global;
use std::process::Abort;
use std::random::RandomSource;
use std::test::Fail;
use std::thread::Threads;

/// A chain of commands, each of which depends on the one before. The fourth one aborts at its
/// second operation, and the fifth one copies a key that is absent.
const CHAIN: &str = r#"{"r":0,"i":1,"seq":1,"deps":[],"ops":[["put","a",5]]}
{"r":1,"i":1,"seq":2,"deps":[[0,1]],"ops":[["get","a"]]}
{"r":0,"i":2,"seq":3,"deps":[[1,1]],"ops":[["add","a",2],["put","b",1]]}
{"r":1,"i":2,"seq":4,"deps":[[0,2]],"ops":[["put","a",9],["is","b",3]]}
{"r":2,"i":1,"seq":5,"deps":[[1,2]],"ops":[["copy","c","a"]]}
{"r":2,"i":2,"seq":6,"deps":[[2,1]],"ops":[["put","b",4]]}
{"r":3,"i":1,"seq":7,"deps":[[2,2]],"ops":[["del","a"]]}
"#;

/// Expects this text of the trace of a key of the chain.
fn expect_trace<R: Abort + Threads + RandomSource + Sync>(
    rt: &R,
    alloc: Global,
    text: &str,
    reads: bool,
    wanted: &str,
) -> Result<(), Fail> {
    let logs = logs_of(alloc, &[CHAIN])?;
    let merged = &merged_of(rt, alloc, &logs)?;
    let graph = build(rt, alloc, merged, plan(rt))?;
    let order = order(rt, alloc, merged, &graph)?;
    let key = key(rt, alloc, text)?;
    let found = trace_text(alloc, merged, &order, &key, reads)?;
    assert!(rt; found.as_slice() == wanted.as_bytes());
    Ok(())
}

#[test]
fn trace_has_the_writes_of_a_key(rt: HostRuntime) -> Result<(), Fail> {
    let wanted = r#"["write",0,1,null,5]
["write",0,2,5,7]
["write",2,1,7,null]
["write",3,1,null,null]
"#;
    expect_trace(&rt, rt.alloc(), "a", false, wanted)
}

#[test]
fn aborted_commands_are_reads(rt: HostRuntime) -> Result<(), Fail> {
    let wanted = r#"["write",0,1,null,5]
["read",1,1,5]
["write",0,2,5,7]
["read",1,2,7]
["write",2,1,7,null]
["write",3,1,null,null]
"#;
    expect_trace(&rt, rt.alloc(), "a", true, wanted)?;
    let wanted = r#"["write",0,2,null,1]
["read",1,2,1]
["write",2,2,1,4]
"#;
    expect_trace(&rt, rt.alloc(), "b", true, wanted)?;
    expect_trace(&rt, rt.alloc(), "d", true, "")
}

fn one_op(alloc: Global, op: Op) -> Result<Vec<Op>, Memory> {
    let mut ops = Vec::new(alloc);
    ops.push(op)?;
    Ok(ops)
}

#[test]
fn commands_are_traced_on_a_store(rt: HostRuntime) -> Result<(), Fail> {
    let alloc = rt.alloc();
    let (a, b) = (key(&rt, alloc, "a")?, key(&rt, alloc, "b")?);
    let first = one_op(alloc, Op::Add { key: a, amount: 1 })?;
    let second = one_op(alloc, Op::Put { key: b, value: 3 })?;
    let a = key(&rt, alloc, "a")?;
    let third = one_op(alloc, Op::Put { key: a, value: 6 })?;
    let (one, two, three) = (id(0, 1), id(0, 2), id(0, 3));
    let commands = [
        Command {
            id: one,
            ops: &first,
        },
        Command {
            id: two,
            ops: &second,
        },
        Command {
            id: three,
            ops: &third,
        },
    ];
    let mut store = store_with(&rt, alloc, &[("a", 5)])?;
    let touches = trace_of(alloc, &mut store, &commands, &key(&rt, alloc, "a")?)?;
    let (five, six) = (Some(5), Some(6));
    let wanted = [
        Touch::Write {
            id: one,
            before: five,
            after: six,
        },
        Touch::Write {
            id: three,
            before: six,
            after: six,
        },
    ];
    assert!(rt; touches.as_slice() == wanted.as_slice());
    expect_pairs(&rt, &store, &[("a", 6), ("b", 3)])?;
    Ok(())
}
