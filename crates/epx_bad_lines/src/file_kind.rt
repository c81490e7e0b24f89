//! Says what bytes are that are no text in UTF-8, and what to do with them.
use crate::lines::LogLine;
use crate::texts::found;
use epx_types::Memory;
use std::alloc::Global;

/// So many first bytes show whether a text is UTF-16.
const SAMPLE_BYTES: usize = 64;

/// Fewer bytes do not show it.
const LEAST_SAMPLE: usize = 4;

/// The first bytes, at most `SAMPLE_BYTES`.
fn sample_of(bytes: &[u8]) -> &[u8] {
    &bytes[..bytes.len().min(SAMPLE_BYTES)]
}

/// Whether every second byte is zero, and no other byte is. `first` is the index of the first zero.
fn alternates(sample: &[u8], first: usize) -> bool {
    for (index, byte) in sample.iter().enumerate() {
        if (*byte == 0) != (index % 2 == first) {
            return false;
        }
    }
    sample.len() >= LEAST_SAMPLE
}

/// The index of the first zero byte.
fn index_of_zero(bytes: &[u8]) -> Option<usize> {
    for (index, byte) in bytes.iter().enumerate() {
        if *byte == 0 {
            return Some(index);
        }
    }
    None
}

const ZIP: &str = "it looks like a zip archive; unpack it: unzip";

const UTF_16: &str = "it looks like UTF-16; convert it: iconv -f UTF-16 -t UTF-8";

/// How files begin that are no text in UTF-8, and what to do with them.
const FRONTS: [(&[u8], &str); 9] = [
    (b"\x1f\x8b", "it looks like gzip; decompress it: gzip -dc"),
    (b"\xfd7zXZ\0", "it looks like xz; decompress it: xz -dc"),
    (
        b"\x28\xb5\x2f\xfd",
        "it looks like zstd; decompress it: zstd -dc",
    ),
    (b"BZh", "it looks like bzip2; decompress it: bzip2 -dc"),
    (b"PK\x03\x04", ZIP),
    (b"PK\x05\x06", ZIP),
    (b"\x7fELF", "it is a program, not a log"),
    (b"\xff\xfe", UTF_16),
    (b"\xfe\xff", UTF_16),
];

/// What kind of file an input is, by its first bytes, if it is no text in UTF-8.
fn explain_front(input: &[u8]) -> Option<&'static str> {
    let sample = sample_of(input);
    for (front, text) in FRONTS {
        if sample.starts_with(front) {
            return Some(text);
        }
    }
    if alternates(sample, 1) {
        return Some("it looks like UTF-16; convert it: iconv -f UTF-16LE -t UTF-8");
    }
    if alternates(sample, 0) {
        return Some("it looks like UTF-16; convert it: iconv -f UTF-16BE -t UTF-8");
    }
    None
}

/// Explains a line with zero bytes.
fn explain_zeros(alloc: Global, bytes: &[u8]) -> Result<Option<String>, Memory> {
    let Some(first) = index_of_zero(bytes) else {
        return Ok(None);
    };
    let sample = sample_of(bytes);
    if [0; SAMPLE_BYTES].starts_with(sample) {
        return found(String::from_str(
            alloc,
            "the line begins with zero bytes: cut off by a crash?",
        ));
    }
    if alternates(sample, 0) || alternates(sample, 1) {
        return found(String::from_str(alloc, "the line looks like UTF-16: convert it to UTF-8"));
    }
    let number = first.saturating_add(1);
    found(format!(in alloc; "the line has zero bytes, the first at byte {number}: damaged?"))
}

/// Explains a line that is not JSON in UTF-8 by the kind of its input, a byte order mark or zero
/// bytes.
pub fn explain_file_kind(alloc: Global, line: LogLine<'_>) -> Result<Option<String>, Memory> {
    if let Some(text) = explain_front(line.log) {
        return found(String::from_str(alloc, text));
    }
    if let [0xef, 0xbb, 0xbf, ..] = line.bytes {
        return found(String::from_str(
            alloc,
            "the line begins with a byte order mark: remove these three bytes",
        ));
    }
    explain_zeros(alloc, line.bytes)
}
