//! Lines of a script. Some repeat a text or have bytes that a plain line cannot have.
use std::alloc::{AllocError, Global};
use std::io;

/// Adds a number in decimal digits.
fn add_number(alloc: Global, text: &mut Vec<u8>, number: u64) -> Result<(), AllocError> {
    let digits = format!(in alloc; "{number}")?;
    text.extend_from_slice(digits.as_bytes())
}

/// Adds the piece after a backslash. Its first letter selects what is added.
fn expand_escape(
    alloc: Global,
    text: &mut Vec<u8>,
    piece: &[u8],
    round: u64,
    left: u64,
) -> Result<(), AllocError> {
    let Some((letter, rest)) = piece.split_first() else {
        return Ok(text.push(b'\\')?);
    };
    match *letter {
        b'n' => text.push(b'\n')?,
        b'r' => text.push(b'\r')?,
        b't' => text.push(b'\t')?,
        b's' => text.push(b' ')?,
        b'i' => add_number(alloc, text, round)?,
        b'j' => add_number(alloc, text, round.saturating_add(1))?,
        b'd' => add_number(alloc, text, left)?,
        other => text.extend_from_slice(&[b'\\', other])?,
    }
    text.extend_from_slice(rest)
}

/// Adds one round of a text. `\n`, `\r`, `\t` and `\s` are a line feed, a carriage return, a tab
/// and a space. `\i`, `\j` and `\d` are the round, the next round and the number of rounds left.
fn add_round(
    alloc: Global,
    text: &mut Vec<u8>,
    written: &str,
    round: u64,
    left: u64,
) -> Result<(), AllocError> {
    let mut pieces = written.split('\\');
    if let Some(first) = pieces.next() {
        text.extend_from_slice(first.as_bytes())?;
    }
    for piece in pieces {
        expand_escape(alloc, text, piece.as_bytes(), round, left)?;
    }
    Ok(())
}

/// Whether the rounds of a text differ.
fn rounds_differ(written: &str) -> bool {
    written.contains("\\i") || written.contains("\\j") || written.contains("\\d")
}

/// Adds `count` rounds of a text.
fn add_rounds(
    alloc: Global,
    text: &mut Vec<u8>,
    written: &str,
    count: u64,
) -> Result<(), AllocError> {
    if rounds_differ(written) {
        for round in 0..count {
            add_round(alloc, text, written, round, count - round - 1)?;
        }
        return Ok(());
    }
    let mut once = Vec::new(alloc);
    add_round(alloc, &mut once, written, 0, 0)?;
    for _ in 0..count {
        text.extend_from_slice(&once)?;
    }
    Ok(())
}

/// Adds `count` instances of replica 0. Each depends on the next 255, where the first follows the
/// last, and on a missing instance: the last on 5.5, and all others on 9.9.
fn add_fan(alloc: Global, text: &mut Vec<u8>, count: u32) -> Result<(), AllocError> {
    for number in 0..count {
        let missing = if number == count - 1 { 5 } else { 9 };
        let start = format!(in alloc;
            "{{\"r\":0,\"i\":{number},\"seq\":1,\"deps\":[[{missing},{missing}]"
        )?;
        text.extend_from_slice(start.as_bytes())?;
        for other in 1..256u64 {
            let target = (number as u64 + other) % count as u64;
            let dependency = format!(in alloc; ",[0,{target}]")?;
            text.extend_from_slice(dependency.as_bytes())?;
        }
        text.extend_from_slice(b"],\"ops\":[]}\n")?;
    }
    Ok(())
}

/// Adds a line of a script to a text. Returns false if the line cannot be read. `%3 TEXT` is three
/// rounds of a text without a line end. `%fan 3` is a fan of three instances. Any other line is
/// added as it is.
pub(crate) fn add_line(alloc: Global, text: &mut Vec<u8>, line: &str) -> io::Result<bool> {
    let Some(rest) = line.strip_prefix('%') else {
        text.extend_from_slice(line.as_bytes())?;
        text.push(b'\n')?;
        return Ok(true);
    };
    let (count, written) = rest.split_once(' ').unwrap_or((rest, ""));
    match (count.parse::<u64>(), written.parse::<u32>()) {
        (Ok(count), _) if !written.is_empty() => add_rounds(alloc, text, written, count)?,
        (Err(_), Ok(instances)) if count == "fan" => add_fan(alloc, text, instances)?,
        _ => return Ok(false),
    }
    Ok(true)
}
