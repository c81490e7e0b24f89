//! The text of a trace.
ghost use Rattle.std.specs.Prelude.{◌≡◌, flat_map, IfOk};
ghost use Rattle.epx_types.specs.ExecutionOrder.{IsExecutionOrder};
ghost use Rattle.epx_trace.specs.TraceLines.{touch_line};
ghost use Rattle.epx_trace.specs.TraceTexts.{IsTraceText};

use crate::execution::trace_of;
use crate::touch::Touch;
use crate::trace_lines::append_touch;
use epx_committed::{Merged, commands_of};
use epx_components::OrderList;
use epx_txn::Store;
use epx_types::{Key, Memory};
use std::alloc::Global;

/// The lines of some touches.
fn lines_of(alloc: Global, touches: &[Touch], reads: bool) -> Result<Vec<u8>, Memory>
    ensures { IfOk result (λ text. text.items ≡ flat_map (touch_line reads) touches.now) }
{
    let mut text = Vec::new(alloc);
    for touch in touches {
        append_touch(alloc, &mut text, reads, *touch)?;
    }
    Ok(text)
}

/// The text of the trace of a key: the executed commands that write it, in execution order, each
/// with the key's value before the command and after it. With `reads` it also has the commands
/// that touch the key and do not write it, each with the value. `order` has to be the execution
/// order of the map.
///
/// A single thread executes the commands from the empty store, in n log n time. The only error is
/// out of memory.
pub fn trace_text(
    alloc: Global,
    merged: &Merged,
    order: &OrderList,
    key: &Key,
    reads: bool,
) -> Result<Vec<u8>, Memory>
    requires { IsExecutionOrder merged.now order.now }
    ensures { IfOk result (λ text. IsTraceText merged.now key.now reads text.items) }
{
    let commands = commands_of(alloc, merged, order.ids())?;
    let touches = trace_of(alloc, &mut Store::new(alloc), &commands, key)?;
    lines_of(alloc, &touches, reads)
}
