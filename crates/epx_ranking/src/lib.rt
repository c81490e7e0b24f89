//! The order in which the ready instances are executed, and checks of lists.
//!
//! `order` sorts the ready instances by rank. `check_order` checks that a list is an order that
//! the protocol allows.
#![tactic(auto)]

mod check;
mod execution_order;
pub mod laws;
mod order_fault;
mod ready;

pub use check::{check_order, check_prefix};
pub use epx_components::{ComponentMap, OrderList, components};
pub use execution_order::order;
pub use order_fault::OrderFault;
