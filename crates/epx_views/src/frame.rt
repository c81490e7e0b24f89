//! What texts of a map have in common: the header, the done instances, and those that wait.
ghost use Rattle.std.specs.Prelude.{◌≡◌, ◌++◌, length, flat_map, OnOk, IfOk};
ghost use Rattle.epx_types.specs.ExecutionOrder.{component_count};
ghost use Rattle.epx_report.specs.ReportLines.{header_line, waiting_line};
ghost use Rattle.epx_views.specs.between.OpeningText.{opening_text};

use epx_components::OrderList;
use epx_graph::Waiter;
use epx_report::{append_done, append_header, append_waiter};
use epx_types::Id;
use std::alloc::{AllocError, Global};

/// A text that has the header alone.
pub(crate) fn begin_text(
    alloc: Global,
    order: &OrderList,
    waiters: &[Waiter],
) -> Result<Vec<u8>, AllocError>
    ensures { IfOk result (λ text. text.items
        ≡ header_line (length order.now) (length waiters.now) (component_count order.now)) }
{
    let mut text = Vec::new(alloc);
    let components = order.component_count();
    append_header(alloc, &mut text, order.len(), waiters.len(), components)?;
    Ok(text)
}

/// What a report has before its replies: the header, and the done instances.
pub fn begin_report(
    alloc: Global,
    done: &[Id],
    order: &OrderList,
    waiters: &[Waiter],
) -> Result<Vec<u8>, AllocError>
    ensures { IfOk result (λ text. text.items ≡ opening_text done.now order.now waiters.now) }
{
    let mut text = begin_text(alloc, order, waiters)?;
    append_done(alloc, &mut text, done)?;
    Ok(text)
}

/// Appends the lines of the instances that wait.
pub fn append_waiting(
    alloc: Global,
    text: &mut Vec<u8>,
    waiters: &[Waiter],
) -> Result<(), AllocError>
    ensures { OnOk result (text.new.items ≡ text.old.items ++ flat_map waiting_line waiters.now) }
{
    let mut line = Vec::new(alloc);
    for waiter in waiters {
        append_waiter(alloc, text, &mut line, waiter.id, waiter.missing)?;
    }
    Ok(())
}
