//! Texts of a committed map, put together from lines: what a report has before its replies, the
//! instances that wait, the execution order, the conflict levels, and the audit.
#![tactic(auto)]

mod audit_text;
mod frame;
mod level_text;
mod order_text;

pub use audit_text::audit_line;
pub use frame::{append_waiting, begin_report};
pub use level_text::level_report;
pub use order_text::order_report;
