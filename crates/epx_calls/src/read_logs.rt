//! Tests of reading logs and of looking up instances. The worked cases in scripts test the
//! refusals.
use crate::fixtures::{PUT_AND_GET, expect_accepted, id, logs_of, merged_of, plan};
use crate::gates::WaitingGate;
use bumpalo::Bump;
use epx_claims::FreeGate;
use epx_merge::{LineBatch, LogReader, Merged, empty_ledger, merge_noted, read_logs};
use epx_types::{Fault, Id, Memory, Plan};
use std::alloc::Global;
use std::process::Abort;
use std::random::RandomSource;
use std::test::Fail;
use std::thread::Threads;

const A: &str = r#"{"r":1,"i":7,"seq":1,"deps":[],"ops":[]}
"#;

const LESS: &str = r#"{"r":0,"i":9,"seq":1,"deps":[[2,2],[1,1]],"ops":[["get","k"]]}
"#;

const LESS_REVERSED: &str =
    r#"{"r":0,"i":9,"seq":1,"deps":[[1,1],[2,2],[1,1]],"ops":[["get","k"]]}"#;

const FOUR_LINES: &str = r#"{"r":0,"i":0,"seq":1,"deps":[],"ops":[]}
{"r":0,"i":1,"seq":1,"deps":[],"ops":[]}
{"r":0,"i":2,"seq":1,"deps":[],"ops":[]}
{"r":0,"i":3,"seq":1,"deps":[],"ops":[]}
"#;

/// Expects the instance at this position of the map, or that the map does not have it.
fn expect_position(rt: &impl Abort, merged: &Merged, of: Id, wanted: Option<usize>) {
    assert!(rt; merged.position(of) == wanted);
    assert!(rt; merged.get(of).is_some() == wanted.is_some());
    if let Some(position) = merged.position(of) {
        assert!(rt; merged.entry_at(position).id() == of);
    }
}

#[test]
fn one_instance(rt: HostRuntime) -> Result<(), Fail> {
    let merged = merged_of(&rt, rt.alloc(), &logs_of(rt.alloc(), &[PUT_AND_GET])?)?;
    assert!(rt; merged.len() == 1 && !merged.is_empty());
    assert!(rt; merged.get(id(0, 0)).map(|entry| entry.seq()) == Some(1));
    expect_position(&rt, &merged, id(0, 0), Some(0));
    expect_position(&rt, &merged, id(0, 1), None);
    Ok(())
}

#[test]
fn dependency_sets_agree(rt: HostRuntime) -> Result<(), Fail> {
    let first = r#"{"r":2,"i":0,"seq":2,"deps":[[1,0],[0,0]],"ops":[]}"#;
    let second = r#"{"r":2,"i":0,"seq":2,"deps":[[0,0],[1,0],[1,0]],"ops":[]}"#;
    let merged = merged_of(&rt, rt.alloc(), &logs_of(rt.alloc(), &[first, second])?)?;
    assert!(rt; merged.len() == 1);
    let wanted: &[Id] = &[id(0, 0), id(1, 0)];
    assert!(rt; merged.get(id(2, 0)).map(|entry| entry.deps()) == Some(wanted));
    expect_position(&rt, &merged, id(0, 0), None);
    Ok(())
}

#[test]
fn instances_are_by_rising_id(rt: HostRuntime) -> Result<(), Fail> {
    let logs = logs_of(rt.alloc(), &[A, LESS_REVERSED, LESS])?;
    let merged = merged_of(&rt, rt.alloc(), &logs)?;
    expect_position(&rt, &merged, id(0, 9), Some(0));
    expect_position(&rt, &merged, id(1, 7), Some(1));
    expect_position(&rt, &merged, id(1, 8), None);
    Ok(())
}

/// Two workers read four lines, while one line waits in the gate until all others were entered.
fn reads_while_one_waits<R: Abort + Threads + RandomSource + Sync>(
    rt: &R,
    alloc: Global,
    waiter: usize,
) -> Result<(), Fail> {
    let logs = logs_of(alloc, &[FOUR_LINES])?;
    let plan = Plan::new(2, 1).ok_or("a plan")?;
    let gate = WaitingGate::new(waiter, 1111);
    let merged = expect_accepted(read_logs(rt, alloc, &logs, plan, &gate))?;
    assert!(rt; merged.len() == 4);
    gate.expect_all_entered()
}

#[test]
fn a_free_worker_reads_the_next_piece(rt: HostRuntime) -> Result<(), Fail> {
    for waiter in 0..4 {
        reads_while_one_waits(&rt, rt.alloc(), waiter)?;
    }
    Ok(())
}

/// Reads logs, each of them in these parts, a batch for each. Returns how often `more` was called
/// too.
fn read_in_batches<R: Abort + Threads + RandomSource + Sync>(
    rt: &R,
    alloc: Global,
    logs: &[[&str; 3]],
) -> Result<(Result<Merged, Fault>, usize), Memory> {
    let copies = Bump::new(alloc);
    let mut reader = LogReader::new(alloc, empty_ledger(rt, alloc), logs.len())?;
    let mut batch = LineBatch::new(alloc);
    let mut calls: usize = 0;
    for (log, parts) in logs.iter().enumerate() {
        let mut line = 0;
        for part in parts {
            batch.clear();
            line = batch.add_part(log, line, part.as_bytes())?;
            assert!(rt; batch.len() < 10);
            let mut more = || calls = calls.wrapping_add(1);
            let (read, ()) = reader.read_during(
                rt,
                alloc,
                Some(&copies),
                &batch,
                &mut more,
                plan(rt),
                &FreeGate,
            );
            reader = read;
        }
    }
    Ok((merge_noted(reader.finish()), calls))
}

#[test]
fn logs_in_batches_are_merged(rt: HostRuntime) -> Result<(), Fail> {
    let logs = [
        ["", FOUR_LINES, A],
        [LESS, A, FOUR_LINES],
        ["", "", LESS_REVERSED],
    ];
    let (merged, calls) = read_in_batches(&rt, rt.alloc(), &logs)?;
    let merged = expect_accepted(merged)?;
    assert!(rt; merged.len() == 6 && calls == 9);
    expect_position(&rt, &merged, id(0, 3), Some(3));
    expect_position(&rt, &merged, id(0, 9), Some(4));
    expect_position(&rt, &merged, id(1, 7), Some(5));
    Ok(())
}

#[test]
fn the_first_bad_line_of_batches_is_reported(rt: HostRuntime) -> Result<(), Fail> {
    let logs = [[A, "", LESS], [FOUR_LINES, "\n[]\n", "[]"], ["[]", "", ""]];
    let (merged, calls) = read_in_batches(&rt, rt.alloc(), &logs)?;
    assert!(rt; calls == 9);
    match merged {
        Err(Fault::BadLine { place, .. }) => assert!(rt; place.log == 1 && place.line == 6),
        Err(Fault::Memory) => return Err(Fail::from("out of memory")),
        _ => return Err(Fail::from("no bad line")),
    }
    Ok(())
}

/// Reads four lines, while one of them waits in the gate until the others are entered and more
/// lines are gathered. Then those are read.
fn gathers_while_one_waits<R: Abort + Threads + RandomSource + Sync>(
    rt: &R,
    alloc: Global,
    waiter: usize,
) -> Result<(), Fail> {
    let copies = Bump::new(alloc);
    let reader = LogReader::new(alloc, empty_ledger(rt, alloc), 1)?;
    let mut here = LineBatch::new(alloc);
    let mut next = LineBatch::new(alloc);
    let last = here.add_part(0, 0, FOUR_LINES.as_bytes())?;
    assert!(rt; here.len() == 4 && last == 4);
    let plan = Plan::new(2, 1).ok_or("a plan")?;
    let gate = WaitingGate::new(waiter, 1111);
    let mut more = || next.add_part(0, last, A.as_bytes());
    let (reader, gathered) = reader.read_during(
        rt,
        alloc,
        Some(&copies),
        &here,
        &mut more,
        plan,
        &gate,
    );
    assert!(rt; gathered == Ok(5) && next.len() == 1);
    let (reader, ()) = reader.read_during(rt, alloc, None, &next, &mut || (), plan, &FreeGate);
    let merged = expect_accepted(merge_noted(reader.finish()))?;
    assert!(rt; merged.len() == 5);
    gate.expect_all_entered()
}

#[test]
fn lines_are_gathered_while_others_are_read(rt: HostRuntime) -> Result<(), Fail> {
    for waiter in 0..4 {
        gathers_while_one_waits(&rt, rt.alloc(), waiter)?;
    }
    Ok(())
}
