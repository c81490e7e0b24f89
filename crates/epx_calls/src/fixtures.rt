//! Keys, Ids and logs for the tests.
use epx_claims::FreeGate;
use epx_merge::{Merged, read_logs};
use epx_types::{Fault, Id, Key, Memory, Plan};
use std::alloc::{AllocError, Global};
use std::process::Abort;
use std::random::RandomSource;
use std::test::Fail;
use std::thread::Threads;

/// The line of an instance without dependencies that puts and gets a key.
pub(crate) const PUT_AND_GET: &str =
    r#"{"r":0,"i":0,"seq":1,"deps":[],"ops":[["put","a",5],["get","a"]]}"#;

/// Makes an Id.
pub(crate) fn id(replica: u8, number: u64) -> Id {
    Id { replica, number }
}

pub(crate) fn key(rt: &impl Abort, alloc: Global, text: &str) -> Result<Key, Memory> {
    Ok(Key::new(alloc, text)?.expect(rt, "a key"))
}

/// The default plan of the program.
pub(crate) fn plan(rt: &impl Abort) -> Plan {
    Plan::new(4, 256).expect(rt, "a plan")
}

/// Adds the line of an instance without operations. The dependencies are written as JSON.
pub(crate) fn push_line(
    alloc: Global,
    log: &mut Vec<u8>,
    of: Id,
    seq: u64,
    deps: &str,
) -> Result<(), AllocError> {
    let Id { replica, number } = of;
    let line = format!(in alloc;
        "{{\"r\":{replica},\"i\":{number},\"seq\":{seq},\"deps\":[{deps}],\"ops\":[]}}\n"
    )?;
    log.extend_from_slice(line.as_bytes())
}

/// Logs with these texts.
pub(crate) fn logs_of(alloc: Global, texts: &[&str]) -> Result<Vec<Vec<u8>>, AllocError> {
    let mut logs = Vec::new(alloc);
    for text in texts {
        logs.push(Vec::from_slice(alloc, text.as_bytes())?)?;
    }
    Ok(logs)
}

/// The map that was read from logs. Fails if they were refused.
pub(crate) fn expect_accepted(read: Result<Merged, Fault>) -> Result<Merged, Fail> {
    match read {
        Ok(merged) => Ok(merged),
        Err(Fault::Memory) => Err(Fail::from("out of memory")),
        Err(_) => Err(Fail::from("the logs are refused")),
    }
}

/// The map that the logs commit. Fails if they are refused.
pub(crate) fn merged_of<R: Abort + Threads + RandomSource + Sync>(
    rt: &R,
    alloc: Global,
    logs: &[Vec<u8>],
) -> Result<Merged, Fail> {
    expect_accepted(read_logs(rt, alloc, logs, plan(rt), &FreeGate))
}
