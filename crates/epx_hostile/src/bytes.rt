//! Runs over logs of arbitrary bytes.
use crate::expected_runs::{
    EMPTY_REPORT, ONE_LINE, ONE_LINE_REPORT, Wanted, bad_first_line, repeated, run_is_right,
};
use epx_types::{Fault, Place, Why};
use std::alloc::AllocGlobal;
use std::process::Abort;
use std::random::RandomSource;
use std::test::Fail;
use std::thread::Threads;

#[test]
fn each_prefix_of_a_line(rt: HostRuntime) -> Result<(), Fail> {
    let line = ONE_LINE.as_bytes();
    assert!(rt; run_is_right(&rt, &[], &[], Ok(EMPTY_REPORT))?);
    for end in 1..line.len() {
        assert!(rt;
            run_is_right(&rt, &line[..end], &[], bad_first_line(Why::NotJson))?,
            "{end} bytes"
        );
    }
    assert!(rt; run_is_right(&rt, line, &[], Ok(ONE_LINE_REPORT))?);
    Ok(())
}

/// Texts that are not JSON. Some are not UTF-8: an invalid byte, a continuation byte first, a NUL
/// in two bytes, half of a surrogate pair, more than U+10FFFF, a truncated character. The others
/// have a NUL or escapes that name no character.
const NO_JSON: [&[u8]; 9] = [
    b"\xff",
    b"{\"x\":\"\x80\"}",
    b"{\"x\":\"\xc0\x80\"}",
    b"{\"x\":\"\xed\xa0\x80\"}",
    b"{\"x\":\"\xf4\x90\x80\x80\"}",
    b"{\"x\":\"\xe2\x82\"}",
    b"{\"x\":\"\x00\"}",
    b"{\"x\":\"\\ud800\"}",
    b"{\"x\":\"\\u12\"}",
];

#[test]
fn bytes_that_are_no_json(rt: HostRuntime) -> Result<(), Fail> {
    for (place, line) in NO_JSON.iter().enumerate() {
        assert!(rt;
            run_is_right(&rt, line, &[], bad_first_line(Why::NotJson))?,
            "line {place}"
        );
    }
    Ok(())
}

#[test]
fn a_good_line_among_bad_bytes(rt: HostRuntime) -> Result<(), Fail> {
    for (before, after) in [
        ("\u{feff}", ""),
        ("", " x"),
        ("", "\0"),
        (",", ""),
        ("\u{a0}", ""),
    ] {
        let line = format!(in rt.alloc(); "{before}{ONE_LINE}{after}")?;
        assert!(rt; run_is_right(&rt, line.as_bytes(), &[], bad_first_line(Why::NotJson))?);
    }
    Ok(())
}

/// Whether a run over `depth` arrays, one inside the other, between two texts has the expected
/// result.
fn run_nested<R: AllocGlobal + Threads + RandomSource + Sync>(
    rt: &R,
    before: &str,
    depth: usize,
    after: &str,
    wanted: Wanted,
) -> Result<bool, Fail> {
    let open = repeated(rt.alloc(), "[", depth)?;
    let close = repeated(rt.alloc(), "]", depth)?;
    let line = format!(in rt.alloc(); "{before}{open}{close}{after}")?;
    run_is_right(rt, line.as_bytes(), &[], wanted)
}

#[test]
fn nesting(rt: HostRuntime) -> Result<(), Fail> {
    let before = r#"{"r":0,"i":0,"seq":1,"deps":[],"ops":[["put","a",5],["get","a"]],"x":"#;
    let cases: [(&str, usize, &str, Wanted); 5] = [
        ("", 127, "", bad_first_line(Why::NotObject)),
        ("", 128, "", bad_first_line(Why::NotJson)),
        ("", 32_768, "", bad_first_line(Why::NotJson)),
        (before, 126, "}", Ok(ONE_LINE_REPORT)),
        (before, 127, "}", bad_first_line(Why::NotJson)),
    ];
    for (before, depth, after, wanted) in cases {
        assert!(rt;
            run_nested(&rt, before, depth, after, wanted)?,
            "{depth} arrays"
        );
    }
    Ok(())
}

#[test]
fn a_line_that_only_opens(rt: HostRuntime) -> Result<(), Fail> {
    for piece in ["[", "{\"x\":", "[[{\"x\":", "\"", "-", "1"] {
        let line = repeated(rt.alloc(), piece, 65_536 / piece.len())?;
        assert!(rt;
            run_is_right(&rt, line.as_bytes(), &[], bad_first_line(Why::NotJson))?,
            "{piece}"
        );
    }
    Ok(())
}

#[test]
fn a_line_longer_than_a_part(rt: HostRuntime) -> Result<(), Fail> {
    let blank = repeated(rt.alloc(), "    ", 150_000)?;
    let log = format!(in rt.alloc(); "{blank}\n{ONE_LINE}\n")?;
    assert!(rt; run_is_right(&rt, log.as_bytes(), &[], Ok(ONE_LINE_REPORT))?);
    assert!(rt; run_is_right(&rt, log.as_bytes(), log.as_bytes(), Ok(ONE_LINE_REPORT))?);
    let bad = format!(in rt.alloc(); "{log}{blank}\n{ONE_LINE}]")?;
    let place = Place { log: 1, line: 4 };
    let why = Why::NotJson;
    let wanted = Err(Fault::BadLine { place, why });
    assert!(rt; run_is_right(&rt, log.as_bytes(), bad.as_bytes(), wanted)?);
    Ok(())
}
