//! Says what is wrong with a line of a log, of a list, of a history or of a report, and what an
//! input looks like. No clause says what is in a text: each function returns for every input, and
//! breaks no rule on the way.
#![tactic(auto)]

mod array_line;
mod call_line;
mod dependencies;
mod earlier_call;
mod file_kind;
mod lines;
mod list_line;
mod looks;
mod members;
mod not_json;
mod operations;
mod reply;
mod shown;
mod texts;

pub use array_line::is_array_begun;
pub use call_line::explain_call_line;
pub use dependencies::explain_deps;
pub use file_kind::explain_file_kind;
pub use lines::{LogLine, first_line, line_at};
pub use list_line::explain_list_line;
pub use looks::{Looks, is_report_line, looks_by, looks_of};
pub use members::{MAX_REPLICA, explain_kind, explain_number, explain_status};
pub use not_json::explain_text;
pub use operations::explain_ops;
pub use shown::{show_bytes, show_text, show_value};
pub use texts::{found, made};
