//! Runs over two logs, and checks of their results.
use epx_tool::{MemorySink, MemorySource, run};
use epx_types::{Fault, Place, Plan, Why};
use std::alloc::{AllocGlobal, Global};
use std::random::RandomSource;
use std::test::Fail;
use std::thread::Threads;

/// The line of one instance without dependencies that puts and gets a key.
pub(crate) const ONE_LINE: &str =
    r#"{"r":0,"i":0,"seq":1,"deps":[],"ops":[["put","a",5],["get","a"]]}"#;

/// The report of that line.
pub(crate) const ONE_LINE_REPORT: &str = r#"["executed",1,"waiting",0,"components",1]
["reply",0,0,"ok",[5]]
["store","a",5]
"#;

/// The report if nothing is executed and nothing waits.
pub(crate) const EMPTY_REPORT: &str = "[\"executed\",0,\"waiting\",0,\"components\",0]\n";

/// The expected result of a run: the whole text, or a fault with nothing written.
pub(crate) type Wanted<'a> = Result<&'a str, Fault>;

/// The fault of the first line of the first log.
pub(crate) fn bad_first_line(why: Why) -> Wanted<'static> {
    let place = Place { log: 0, line: 1 };
    Err(Fault::BadLine { place, why })
}

/// Plans of one worker, which reads logs part by part, and of two. They take single items.
pub(crate) fn plans() -> Result<[Plan; 2], Fail> {
    Ok([
        Plan::new(1, 1).ok_or("a plan")?,
        Plan::new(2, 1).ok_or("a plan")?,
    ])
}

/// Whether a run has the expected result. Out of memory fails the test. Then nothing may be
/// written, except that a sink in memory that could not grow has a failed write and a prefix of
/// the text.
pub(crate) fn is_right(
    outcome: Result<(), Fault>,
    held: &[u8],
    wanted: Wanted,
) -> Result<bool, Fail> {
    match (outcome, wanted) {
        (Ok(()), Ok(text)) => Ok(held == text.as_bytes()),
        (Err(Fault::Memory), _) if held.is_empty() => Err(Fail::from("out of memory")),
        (Err(Fault::Write), Ok(text)) if text.as_bytes().starts_with(held) => {
            Err(Fail::from("out of memory in the sink"))
        }
        (Err(fault), Err(wanted)) => Ok(fault == wanted && held.is_empty()),
        _ => Ok(false),
    }
}

/// Whether the runs over these two logs have the expected result, for every plan.
pub(crate) fn run_is_right<R: AllocGlobal + Threads + RandomSource + Sync>(
    rt: &R,
    first: &[u8],
    second: &[u8],
    wanted: Wanted,
) -> Result<bool, Fail> {
    for plan in plans()? {
        let mut sources = [MemorySource::new(first), MemorySource::new(second)];
        let mut sink = MemorySink::new(rt.alloc());
        let outcome = run(rt, rt.alloc(), &mut sources, plan, &mut sink);
        if !is_right(outcome, sink.bytes(), wanted)? {
            return Ok(false);
        }
    }
    Ok(true)
}

/// A text repeated `count` times.
pub(crate) fn repeated(alloc: Global, text: &str, count: usize) -> Result<String, Fail> {
    let mut all = String::new(alloc);
    for _ in 0..count {
        all.push_str(text)?;
    }
    Ok(all)
}
