//! The execution of one command over a store.
#![tactic(auto)]

mod action;
mod draft;
pub mod evaluation;
mod lone_op;

pub use epx_store::{Effect, Store, Writes, effect, merge, merge_effects, store};
pub use epx_types::{command_keys as keys, touched, written};
pub use evaluation::{apply, apply_with_room, eval, reply_len};
