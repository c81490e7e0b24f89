//! Shows bytes of a file in a line of text.
use epx_types::Memory;
use serde_json::Value;
use std::alloc::{AllocError, Global};

/// At most this many characters are shown.
const MOST_SHOWN: usize = 60;

/// These bytes have at least `MOST_SHOWN` characters, if there are so many.
const FRONT_BYTES: usize = 4 * MOST_SHOWN;

/// Whether a character could change the look of the line: control characters, marks without
/// width and changes of direction.
fn is_hidden(c: char) -> bool {
    c.is_control()
        || matches!(
            c,
            '\u{200b}'..='\u{200f}'
                | '\u{2028}'..='\u{202e}'
                | '\u{2066}'..='\u{2069}'
                | '\u{feff}'
        )
}

/// Appends a character, or its escape if it is hidden.
fn push_visible(text: &mut String, c: char) -> Result<(), AllocError> {
    if !is_hidden(c) {
        return text.push(c);
    }
    for part in c.escape_default() {
        text.push(part)?;
    }
    Ok(())
}

/// Shows bytes as text. Hidden characters are escaped, and bytes that are not UTF-8 replaced. A
/// long text is cut, and ends with two dots.
pub fn show_bytes(alloc: Global, bytes: &[u8]) -> Result<String, Memory> {
    let front = &bytes[..bytes.len().min(FRONT_BYTES)];
    let whole = String::from_utf8_lossy(alloc, front)?;
    let mut text = String::new(alloc);
    for (index, c) in whole.as_str().chars().enumerate() {
        if index >= MOST_SHOWN {
            text.push_str("..")?;
            return Ok(text);
        }
        push_visible(&mut text, c)?;
    }
    Ok(text)
}

/// Shows a text whole. Hidden characters are escaped.
pub fn show_text(alloc: Global, whole: &str) -> Result<String, Memory> {
    let mut text = String::new(alloc);
    for c in whole.chars() {
        push_visible(&mut text, c)?;
    }
    Ok(text)
}

/// Shows a JSON value as `show_bytes` shows its text.
pub fn show_value(alloc: Global, value: &Value) -> Result<String, Memory> {
    let text = value.to_string(alloc)?;
    show_bytes(alloc, text.as_bytes())
}
