//! Tests of lines: cut out of a log, read and written. The worked cases in scripts test their
//! meaning.
use crate::fixtures::{PUT_AND_GET, id};
use epx_lines::{Line, LineFault, cut_lines, read_line, write_line};
use epx_types::{Entry, Key, Memory, Op};
use std::alloc::{AllocError, Global};
use std::process::Abort;
use std::test::Fail;

fn repeated(alloc: Global, piece: &str, count: usize) -> Result<String, AllocError> {
    let mut text = String::new(alloc);
    for _ in 0..count {
        text.push_str(piece)?;
    }
    Ok(text)
}

/// Expects these lines of the bytes. Each line is shown between angle brackets.
fn expect_lines(rt: &impl Abort, alloc: Global, bytes: &str, wanted: &str) -> Result<(), Fail> {
    let mut shown = Vec::new(alloc);
    for line in &cut_lines(alloc, bytes.as_bytes())? {
        shown.push(b'<')?;
        shown.extend_from_slice(line)?;
        shown.push(b'>')?;
    }
    assert!(rt; shown.as_slice() == wanted.as_bytes());
    Ok(())
}

#[test]
fn lines_end_at_line_feeds(rt: HostRuntime) -> Result<(), Fail> {
    expect_lines(&rt, rt.alloc(), "a\n\nb", "<a><><b>")?;
    expect_lines(&rt, rt.alloc(), "", "")?;
    expect_lines(&rt, rt.alloc(), "\n", "<>")?;
    expect_lines(&rt, rt.alloc(), "a\n", "<a>")?;
    expect_lines(&rt, rt.alloc(), "a\r\nb", "<a\r><b>")
}

/// The greatest number of copy operations, each between keys of the greatest length.
fn longest_ops(alloc: Global) -> Result<Vec<Op>, Memory> {
    let text = repeated(alloc, "\u{1}", 64)?;
    let mut ops = Vec::new(alloc);
    for _ in 0..64 {
        let source = Key::new(alloc, text.as_str())?;
        let target = Key::new(alloc, text.as_str())?;
        if let (Some(source), Some(target)) = (source, target) {
            ops.push(Op::Copy { source, target })?;
        }
    }
    Ok(ops)
}

/// An entry with the greatest number of parts, each of the greatest length.
fn longest_entry(alloc: Global) -> Result<Option<Entry>, Memory> {
    let mut deps = Vec::new(alloc);
    for below in 0..256 {
        deps.push(id(255, u64::MAX - 255 + below))?;
    }
    let of = id(255, 10_000_000_000_000_000_000);
    Ok(Entry::new(of, u64::MAX, deps, longest_ops(alloc)?))
}

/// The entry that a line is read as.
fn entry_of(alloc: Global, line: &str) -> Result<Entry, Fail> {
    match read_line(alloc, line.as_bytes()) {
        Ok(Line::Entry(entry)) => Ok(entry),
        Err(LineFault::Memory) => Err(Fail::from("out of memory")),
        _ => Err(Fail::from("no entry")),
    }
}

#[test]
fn the_longest_line_is_written_and_read(rt: HostRuntime) -> Result<(), Fail> {
    let entry = longest_entry(rt.alloc())?.ok_or("no entry")?;
    let line = write_line(rt.alloc(), &entry)?;
    assert!(rt; line.len() == 57_102);
    let read = entry_of(rt.alloc(), line.as_str())?;
    assert!(rt; write_line(rt.alloc(), &read)?.as_str() == line.as_str());
    Ok(())
}

#[test]
fn numbers_and_lists_are_read(rt: HostRuntime) -> Result<(), Fail> {
    let entry = entry_of(rt.alloc(), PUT_AND_GET)?;
    assert!(rt; entry.id() == id(0, 0) && entry.seq() == 1);
    assert!(rt; entry.deps().is_empty() && entry.ops().len() == 2);
    Ok(())
}
