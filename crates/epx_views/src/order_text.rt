//! The text of the execution order.
ghost use Rattle.std.specs.Prelude.{◌≡◌, ◌++◌, flat_map, OnOk, IfOk};
ghost use Rattle.epx_report.specs.ViewLines.{order_line};
ghost use Rattle.epx_views.specs.OrderText.{order_text};

use crate::frame::{append_waiting, begin_text};
use epx_components::OrderList;
use epx_graph::Waiter;
use epx_report::append_ranked;
use epx_types::Memory;
use std::alloc::{AllocError, Global};

/// Appends the line of each instance, with its depth and the leader of its component.
fn append_order(alloc: Global, text: &mut Vec<u8>, order: &OrderList) -> Result<(), AllocError>
    ensures { OnOk result (text.new.items ≡ text.old.items ++ flat_map order_line order.now) }
{
    let mut line = Vec::new(alloc);
    for (position, id) in order.ids().iter().enumerate() {
        let leader = order.component_of(position);
        append_ranked(
            alloc,
            text,
            &mut line,
            *id,
            order.depth_of(position),
            leader,
        )?;
    }
    Ok(())
}

/// The header, the instances in execution order with depth and leader, and those that wait.
pub fn order_report(alloc: Global, order: &OrderList, waiters: &[Waiter]) -> Result<Vec<u8>, Memory>
    ensures { IfOk result (λ text. text.items ≡ order_text order.now waiters.now) }
{
    let mut text = begin_text(alloc, order, waiters)?;
    append_order(alloc, &mut text, order)?;
    append_waiting(alloc, &mut text, waiters)?;
    Ok(text)
}
