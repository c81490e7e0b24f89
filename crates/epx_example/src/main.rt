//! Uses the crates as libraries. It executes instances that are in memory and prints their replies
//! and the store. Then it resumes from the report of that run with later instances.
#![tactic(auto)]

mod entries;
mod order_entries;
mod run;

use crate::entries::{first_entries, later_entries};
use crate::run::{RunResult, run};
use epx_report::read_base;
use epx_txn::Store;
use epx_types::{Fault, Memory, Plan, Reply};
use std::alloc::{AllocError, Global};
use std::fmt::Write;
use std::io;
use std::process::ExitCode;
use std::random::RandomSource;
use std::thread::Threads;

/// The report of the first run, as `epx run` writes it.
const FIRST_REPORT: &str = "[\"executed\",2,\"waiting\",1,\"components\",2]\n\
    [\"reply\",0,1,\"ok\",[]]\n\
    [\"reply\",1,1,\"ok\",[]]\n\
    [\"waiting\",2,1,1,2]\n\
    [\"store\",\"alice\",30]\n\
    [\"store\",\"bob\",20]\n";

/// The first run: nothing is done, and the store is empty.
fn first_run<R: Threads + RandomSource + Sync>(
    rt: &R,
    alloc: Global,
    store: &mut Store,
) -> Result<RunResult, Fault> {
    let plan = Plan::new(4, 256).unwrap();
    run(rt, alloc, first_entries(alloc)?, &[], store, plan)
}

/// The next run: what the report says is done, and the store is what it says.
fn next_run<R: Threads + RandomSource + Sync>(
    rt: &R,
    alloc: Global,
) -> Result<(RunResult, Store), Fault> {
    let plan = Plan::new(4, 256).unwrap();
    let (done, mut store) = read_base(alloc, FIRST_REPORT.as_bytes())?.into_parts();
    let run = run(rt, alloc, later_entries(alloc)?, &done, &mut store, plan)?;
    Ok((run, store))
}

/// Writes what a command replied: the values that it read, or where it aborted.
fn write_reply(text: &mut String, reply: &Reply) -> Result<(), AllocError> {
    match reply {
        Reply::Values(values) => {
            for value in values.as_slice() {
                match value {
                    Some(number) => write!(text, " {number}")?,
                    None => text.push_str(" absent")?,
                }
            }
            Ok(())
        }
        Reply::Abort(index) => write!(text, " aborted at operation {index}"),
    }
}

/// Writes the replies in execution order, the instances that wait, and the store.
fn write_run(text: &mut String, run: &RunResult, store: &Store) -> Result<(), Memory> {
    for (id, reply) in run.order.ids().iter().zip(run.replies.iter()) {
        write!(text, "{id} replied")?;
        write_reply(text, reply)?;
        text.push_str("\n")?;
    }
    for waiter in &run.waiters {
        write!(text, "{} waits for {}\n", waiter.id, waiter.missing)?;
    }
    for (key, value) in &store.pairs()? {
        write!(text, "{} = {value}\n", key.text())?;
    }
    Ok(())
}

/// The text of both runs.
fn two_runs<R: Threads + RandomSource + Sync>(rt: &R, alloc: Global) -> Result<String, Fault> {
    let mut text = String::new(alloc);
    let mut store = Store::new(alloc);
    let run = first_run(rt, alloc, &mut store)?;
    write_run(&mut text, &run, &store)?;

    let (run, store) = next_run(rt, alloc)?;
    write_run(&mut text, &run, &store)?;
    Ok(text)
}

/// Prints the text of both runs, or a fault to standard error with its status.
fn main(rt: HostRuntime) -> io::Result<ExitCode> {
    match two_runs(&rt, rt.alloc()) {
        Ok(text) => print!(rt; "{text}")?,
        Err(fault) => {
            eprintln!(rt; "{fault}")?;
            return Ok(ExitCode::from(fault.status()));
        }
    }
    Ok(ExitCode::SUCCESS)
}
