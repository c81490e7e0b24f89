//! Reads the lines of a base.
ghost use Rattle.std.specs.Prelude.{◌≡◌, IfOk, option_and_then};
ghost use Rattle.epx_lines.specs.Meaning.{json_of};
ghost use Rattle.epx_report.specs.Forms.{form_of, base_line_of};

use crate::from_tokens::line_from_tokens;
use crate::from_value::{BaseLine, read_base_line};
use epx_lines::{MAX_LINE_BYTES, read_json};
use epx_types::Memory;
use json::Scratch;
use std::alloc::Global;

/// Reads a line that is not too long, from its JSON value.
fn read_json_line(alloc: Global, bytes: &[u8]) -> Result<Option<BaseLine>, Memory>
    ensures { IfOk result (λ o. o ≡ option_and_then form_of (json_of bytes.now)) }
{
    let Some(value) = read_json(alloc, bytes)? else {
        return Ok(None);
    };
    read_base_line(alloc, &value)
}

/// Reads lines one after another and reuses its buffers.
#[derive(Drop)]
pub(crate) struct BaseLineReader {
    scratch: Scratch,
}

impl BaseLineReader {
    /// Returns a reader with an empty buffer.
    pub(crate) fn new(alloc: Global) -> BaseLineReader {
        BaseLineReader {
            scratch: Scratch::new(alloc),
        }
    }

    /// Reads one line, without its line feed. None if it is not a line of a base.
    #[tactic(auto, unfolding(crate::specs::Forms::base_line_of))]
    pub(crate) fn read(&mut self, alloc: Global, bytes: &[u8]) -> Result<Option<BaseLine>, Memory>
        ensures { IfOk result (λ o. o ≡ base_line_of bytes.now) }
    {
        if bytes.len() > MAX_LINE_BYTES {
            return Ok(None);
        }
        if let Some(line) = line_from_tokens(alloc, &mut self.scratch, bytes) {
            return Ok(Some(line));
        }
        read_json_line(alloc, bytes)
    }
}
