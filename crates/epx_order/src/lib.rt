//! The order in which the ready instances are executed, checks of lists, and audits.
//!
//! `order` sorts the ready instances by rank. `check_order` checks that a list is an order that
//! the protocol allows. `audit` checks that any two ready instances that conflict are related.
#![tactic(auto)]

pub use epx_audit::audit;
pub use epx_components::{ComponentMap, OrderList, components};
pub use epx_ranking::{OrderFault, check_order, check_prefix, laws, order};
