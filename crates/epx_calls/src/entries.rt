//! Tests of entries in memory: which map they commit, and how they are refused.
use crate::fixtures::{expect_accepted, id, logs_of, merged_of};
use epx_merge::{Merged, from_entries};
use epx_types::{Entry, Fault, Id, Place};
use std::alloc::Global;
use std::process::Abort;
use std::test::Fail;

/// The lines of a log with the instances of `three`, in their order.
const THREE: &str = r#"{"r":2,"i":7,"seq":3,"deps":[[0,9]],"ops":[]}
{"r":0,"i":9,"seq":2,"deps":[[1,1]],"ops":[]}
{"r":1,"i":1,"seq":1,"deps":[[0,9]],"ops":[]}
"#;

/// An instance without operations that depends on one other instance.
fn entry(alloc: Global, of: Id, seq: u64, dependency: Id) -> Result<Entry, Fail> {
    let deps = vec![in alloc; dependency]?;
    Ok(Entry::new(of, seq, deps, Vec::new(alloc)).ok_or("an entry")?)
}

/// Three instances that are not by increasing Id.
fn three(alloc: Global) -> Result<Vec<Entry>, Fail> {
    let mut entries = Vec::new(alloc);
    entries.push(entry(alloc, id(2, 7), 3, id(0, 9))?)?;
    entries.push(entry(alloc, id(0, 9), 2, id(1, 1))?)?;
    entries.push(entry(alloc, id(1, 1), 1, id(0, 9))?)?;
    Ok(entries)
}

/// Expects the same entries at the same positions in both maps.
fn expect_same(rt: &impl Abort, found: &Merged, wanted: &Merged) {
    assert!(rt; found.len() == wanted.len());
    for position in 0..found.len() {
        assert!(rt; position < wanted.len());
        assert!(rt; found.id_at(position) == wanted.id_at(position));
        let (entry, other) = (found.entry_at(position), wanted.entry_at(position));
        assert!(rt; entry.id() == other.id() && entry.seq() == other.seq());
        assert!(rt; entry.deps() == other.deps());
        assert!(rt; entry.ops() == other.ops());
    }
}

/// Expects that the entries are refused, because those of one instance on these two lines differ.
fn expect_disagreement(
    rt: &impl Abort,
    alloc: Global,
    entries: Vec<Entry>,
    of: Id,
    first: usize,
    second: usize,
) -> Result<(), Fail> {
    let wanted = Fault::Disagree {
        id: of,
        first: Place {
            log: 0,
            line: first,
        },
        second: Place {
            log: 0,
            line: second,
        },
    };
    match from_entries(alloc, entries) {
        Err(Fault::Memory) => return Err(Fail::from("out of memory")),
        Err(fault) => assert!(rt; fault == wanted),
        Ok(_) => return Err(Fail::from("the entries are accepted")),
    }
    Ok(())
}

#[test]
fn entries_commit_what_their_text_commits(rt: HostRuntime) -> Result<(), Fail> {
    let found = expect_accepted(from_entries(rt.alloc(), three(rt.alloc())?))?;
    assert!(rt; found.len() == 3);
    assert!(rt; found.get(id(0, 9)).map(|entry| entry.seq()) == Some(2));
    assert!(rt; found.position(id(2, 7)) == Some(2));
    let wanted = merged_of(&rt, rt.alloc(), &logs_of(rt.alloc(), &[THREE])?)?;
    expect_same(&rt, &found, &wanted);
    Ok(())
}

#[test]
fn equal_entries_are_one(rt: HostRuntime) -> Result<(), Fail> {
    let mut entries = three(rt.alloc())?;
    entries.push(entry(rt.alloc(), id(0, 9), 2, id(1, 1))?)?;
    entries.push(entry(rt.alloc(), id(2, 7), 3, id(0, 9))?)?;
    let found = expect_accepted(from_entries(rt.alloc(), entries))?;
    let wanted = expect_accepted(from_entries(rt.alloc(), three(rt.alloc())?))?;
    expect_same(&rt, &found, &wanted);
    Ok(())
}

// 2.7 is the first to differ, on lines 1 and 4. The fault names the lesser 0.9: its line 5 repeats
// line 2, and line 6 differs from it.
#[test]
fn the_least_instance_is_named_by_lines_from_1(rt: HostRuntime) -> Result<(), Fail> {
    let mut entries = three(rt.alloc())?;
    entries.push(entry(rt.alloc(), id(2, 7), 4, id(0, 9))?)?;
    entries.push(entry(rt.alloc(), id(0, 9), 2, id(1, 1))?)?;
    entries.push(entry(rt.alloc(), id(0, 9), 2, id(1, 2))?)?;
    expect_disagreement(&rt, rt.alloc(), entries, id(0, 9), 2, 6)
}

#[test]
fn no_entries_commit_nothing(rt: HostRuntime) -> Result<(), Fail> {
    let found = expect_accepted(from_entries(rt.alloc(), Vec::new(rt.alloc())))?;
    assert!(rt; found.is_empty());
    assert!(rt; found.get(id(0, 0)).is_none());
    Ok(())
}
