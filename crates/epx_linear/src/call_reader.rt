//! Reads the lines of a history, one after another.
ghost use Rattle.std.specs.Prelude.{◌≡◌, IfOk, option_and_then};
ghost use Rattle.epx_lines.specs.Meaning.{json_of};
ghost use Rattle.epx_linear.specs.HistoryLines.{call_from, call_line_of};

use crate::call_line::read_call_value;
use crate::call_tokens::call_from_tokens;
use crate::client_call::ClientCall;
use epx_lines::{MAX_LINE_BYTES, read_json};
use epx_types::Memory;
use json::Scratch;
use std::alloc::Global;

/// Reads a line that is not too long, from its JSON value.
fn read_json_line(alloc: Global, bytes: &[u8]) -> Result<Option<ClientCall>, Memory>
    ensures { IfOk result (λ o. o ≡ option_and_then call_from (json_of bytes.now)) }
{
    let Some(value) = read_json(alloc, bytes)? else {
        return Ok(None);
    };
    read_call_value(alloc, &value)
}

/// Reads lines one after another and reuses its buffers.
#[derive(Drop)]
pub(crate) struct CallReader {
    scratch: Scratch,
}

impl CallReader {
    /// A reader with empty buffers.
    pub(crate) fn new(alloc: Global) -> CallReader {
        CallReader {
            scratch: Scratch::new(alloc),
        }
    }

    /// Reads the call of a line, without its line feed. None if it says no call.
    #[tactic(auto, unfolding(crate::specs::HistoryLines::call_line_of))]
    pub(crate) fn read(&mut self, alloc: Global, bytes: &[u8]) -> Result<Option<ClientCall>, Memory>
        ensures { IfOk result (λ o. o ≡ call_line_of bytes.now) }
    {
        if bytes.len() > MAX_LINE_BYTES {
            return Ok(None);
        }
        if let Some(call) = call_from_tokens(alloc, &mut self.scratch, bytes) {
            return Ok(Some(call));
        }
        read_json_line(alloc, bytes)
    }
}
