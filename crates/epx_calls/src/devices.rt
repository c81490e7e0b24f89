//! Whole transfers over each kind of device, and devices that fail after each number of bytes.
ghost use Rattle.std.specs.Prelude.{◌≡◌, ◌≤◌, false};

use epx_devices::{
    DeviceFault, FuseSink, FuseSource, MemorySink, MemorySource, PathSource, Sink, Source, StdSink,
    StdSource, read_log, read_on, write_out,
};
use epx_types::Fault;
use std::alloc::Global;
use std::io::{self, Error, ErrorKind, Read, Write};
use std::process::Abort;
use std::rt::Files;
use std::test::Fail;

const TEXT: &str = "{\"r\":0,\"i\":1,\"seq\":5}\n";

/// Expects that the source, as log 5, delivers this whole text.
fn expect_text<S: Source>(rt: &impl Abort, alloc: Global, source: &mut S) -> Result<(), Fail>
    requires { S.model.has_failed source.old ≡ false }
{
    let bytes = read_log(alloc, 5, source)?;
    assert!(rt; bytes.as_slice() == TEXT.as_bytes());
    assert!(rt; !source.failed());
    Ok(())
}

/// Expects that the source cannot be read as log 5.
fn expect_unreadable<S: Source>(rt: &impl Abort, alloc: Global, source: &mut S) -> Result<(), Fail>
    requires { S.model.has_failed source.old ≡ false }
{
    let fault = read_log(alloc, 5, source).err();
    if fault == Some(Fault::Memory) {
        return Err(Fail::from("out of memory"));
    }
    assert!(rt; fault == Some(Fault::Read { log: 5 }));
    assert!(rt; source.failed());
    Ok(())
}

/// Writes the whole text to a sink that can fail only if memory runs out.
fn write_whole<W: Sink>(sink: &mut W) -> Result<(), Fail>
    requires { W.model.has_failed sink.old ≡ false }
{
    match write_out(TEXT.as_bytes(), sink) {
        Ok(()) => Ok(()),
        Err(_) => Err(Fail::from("out of memory in the sink")),
    }
}

#[test]
fn what_is_written_is_read_again(rt: HostRuntime) -> Result<(), Fail> {
    let mut sink = MemorySink::new(rt.alloc());
    write_whole(&mut sink)?;
    assert!(rt; !sink.failed());
    expect_text(&rt, rt.alloc(), &mut MemorySource::new(sink.bytes()))
}

#[test]
fn a_log_is_read_in_parts(rt: HostRuntime) -> Result<(), Fail> {
    let mut source = MemorySource::new(TEXT.as_bytes());
    let front = read_on(5, &mut source, 0, Vec::new(rt.alloc()), 4)?;
    assert!(rt; front.bytes.as_slice() == TEXT.as_bytes() && !front.is_last);
    let rest = read_on(5, &mut source, TEXT.len(), Vec::new(rt.alloc()), 1)?;
    assert!(rt; rest.bytes.is_empty() && rest.is_last);
    Ok(())
}

#[test]
fn one_byte_a_call_is_enough(rt: HostRuntime) -> Result<(), Fail> {
    let mut sink = FuseSink::new(rt.alloc(), 1, None);
    write_whole(&mut sink)?;
    expect_text(&rt, rt.alloc(), &mut FuseSource::new(sink.bytes(), 1, None))
}

/// Expects that a source which delivers `at_once` bytes a call fails after each number of bytes.
fn fails_after_any_byte(rt: &impl Abort, alloc: Global, at_once: usize) -> Result<(), Fail>
    requires { 1 ≤ at_once }
{
    let text = TEXT.as_bytes();
    for fuse in 0..text.len() + 1 {
        expect_unreadable(rt, alloc, &mut FuseSource::new(text, at_once, Some(fuse)))?;
    }
    let enough = text.len() + 1;
    expect_text(rt, alloc, &mut FuseSource::new(text, at_once, Some(enough)))
}

#[test]
fn a_source_that_fails_after_any_byte_can_not_be_read(rt: HostRuntime) -> Result<(), Fail> {
    fails_after_any_byte(&rt, rt.alloc(), 1)?;
    fails_after_any_byte(&rt, rt.alloc(), 2)?;
    fails_after_any_byte(&rt, rt.alloc(), 3)
}

/// Expects this result and these bytes in a sink that takes `at_once` bytes a call and fails after
/// `fuse` bytes.
fn expect_taken(
    rt: &impl Abort,
    alloc: Global,
    at_once: usize,
    fuse: usize,
    wanted: Result<(), Fault>,
    held: &[u8],
) -> Result<(), Fail>
    requires { 1 ≤ at_once }
{
    let mut sink = FuseSink::new(alloc, at_once, Some(fuse));
    let written = write_out(TEXT.as_bytes(), &mut sink);
    if written == Err(Fault::Write) && sink.bytes().len() < held.len() {
        return Err(Fail::from("out of memory in the sink"));
    }
    assert!(rt; written == wanted);
    assert!(rt; sink.failed() == written.is_err());
    assert!(rt; sink.bytes() == held);
    Ok(())
}

/// Expects that a sink which takes `at_once` bytes a call and fails after some bytes then holds
/// these, for each number of bytes. One that would fail after the text takes all of it.
fn expect_any_prefix(rt: &impl Abort, alloc: Global, at_once: usize) -> Result<(), Fail>
    requires { 1 ≤ at_once }
{
    let text = TEXT.as_bytes();
    for fuse in 0..text.len() + 1 {
        expect_taken(rt, alloc, at_once, fuse, Err(Fault::Write), &text[..fuse])?;
    }
    expect_taken(rt, alloc, at_once, text.len() + 1, Ok(()), text)
}

#[test]
fn a_sink_that_fails_after_any_byte_holds_a_prefix(rt: HostRuntime) -> Result<(), Fail> {
    expect_any_prefix(&rt, rt.alloc(), 1)?;
    expect_any_prefix(&rt, rt.alloc(), 2)?;
    expect_any_prefix(&rt, rt.alloc(), 3)
}

#[test]
fn each_read_on_a_spent_fuse_fails(rt: HostRuntime) {
    let mut source = FuseSource::new(TEXT.as_bytes(), 1, Some(0));
    for _ in 0..3 {
        assert!(rt; source.read_some(&mut [0; 8]) == Err(DeviceFault));
    }
}

#[test]
fn each_write_on_a_spent_fuse_fails(rt: HostRuntime) {
    let mut sink = FuseSink::new(rt.alloc(), 1, Some(0));
    for _ in 0..3 {
        assert!(rt; sink.write_some(TEXT.as_bytes()) == Err(DeviceFault));
        assert!(rt; sink.flush() == Err(DeviceFault));
    }
}

#[test]
fn one_source_fails_and_another_does_not(rt: HostRuntime) -> Result<(), Fail> {
    let mut first = FuseSource::new(TEXT.as_bytes(), 4, Some(0));
    let mut second = FuseSource::new(TEXT.as_bytes(), 4, None);
    expect_unreadable(&rt, rt.alloc(), &mut first)?;
    expect_text(&rt, rt.alloc(), &mut second)
}

#[test]
fn std_readers_and_writers_carry_the_same_bytes(rt: HostRuntime) -> Result<(), Fail> {
    let mut written = Vec::new(rt.alloc());
    let mut sink = StdSink::new(&mut written);
    write_whole(&mut sink)?;
    assert!(rt; written.as_slice() == TEXT.as_bytes());
    expect_text(&rt, rt.alloc(), &mut StdSource::new(TEXT.as_bytes()))
}

/// A device that fails each read and each write.
#[derive(Drop)]
struct Broken;

impl Read for Broken {
    fn read(&mut self, _part: &mut [u8]) -> io::Result<usize> {
        Err(Error::from(ErrorKind::Other))
    }
}

impl Write for Broken {
    fn write(&mut self, _part: &[u8]) -> io::Result<usize> {
        Ok(0)
    }

    fn flush(&mut self) -> io::Result<()> {
        Err(Error::from(ErrorKind::Other))
    }
}

/// Expects that the bytes cannot be written to a broken sink, and that the sink reports it.
fn expect_unwritable(rt: &impl Abort, bytes: &[u8]) {
    let mut sink = StdSink::new(Broken);
    assert!(rt; write_out(bytes, &mut sink) == Err(Fault::Write));
    assert!(rt; sink.failed());
}

#[test]
fn std_devices_report_failures(rt: HostRuntime) -> Result<(), Fail> {
    expect_unreadable(&rt, rt.alloc(), &mut StdSource::new(Broken))?;
    expect_unwritable(&rt, TEXT.as_bytes());
    expect_unwritable(&rt, &[]);
    Ok(())
}

/// Expects that the file cannot be read, and that the source reports it.
fn expect_no_file(rt: &(impl Abort + Files), alloc: Global, path: &str) -> Result<(), Fail> {
    expect_unreadable(rt, alloc, &mut PathSource::new(rt, path))
}

#[test]
fn a_path_that_leads_nowhere_can_not_be_read(rt: HostRuntime) -> Result<(), Fail> {
    expect_no_file(&rt, rt.alloc(), "no such folder/no such log.jsonl")?;
    expect_no_file(&rt, rt.alloc(), "")
}

#[test]
fn a_folder_can_not_be_read(rt: HostRuntime) -> Result<(), Fail> {
    expect_no_file(&rt, rt.alloc(), ".")
}

#[test]
fn a_file_is_read_to_its_end(rt: HostRuntime) -> Result<(), Fail> {
    let mut source = PathSource::new(&rt, "/dev/null");
    let bytes = read_log(rt.alloc(), 0, &mut source)?;
    assert!(rt; bytes.is_empty() && !source.failed());
    Ok(())
}
