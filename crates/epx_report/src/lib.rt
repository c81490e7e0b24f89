//! Writes the lines of all answers, and reads bases and lists of instances. A base is an earlier
//! report, read for its done instances and its store. `specs/` defines each of their lines.
#![tactic(auto)]

mod base;
mod from_tokens;
mod from_value;
mod id_set;
mod laws;
mod line_parts;
mod line_pieces;
mod list;
mod parts;
mod progress;
mod read;
mod report_lines;
mod value_lines;
mod view_lines;
mod whole_base;

pub use base::{Base, BaseFault, read_base};
pub use from_value::has_text;
pub use laws::{
    bad_base_is_bad_at_one_line, bad_list_is_bad_at_one_line, base_is_no_bad_base,
    base_or_bad_base, base_says_one_thing, done_after_exists, list_is_no_bad_list,
    list_names_one_list, list_or_bad_list, report_is_a_base, report_is_read_as_it_says,
};
pub use list::read_list;
pub use progress::store_of;
pub use report_lines::{
    append_done, append_header, append_pairs, append_replies, append_store, append_waiter,
};
pub use value_lines::append_line;
pub use view_lines::{
    append_level, append_ranked, missing_line, name_line, position_line, uncovered_line,
};
pub use whole_base::read_base_by;
