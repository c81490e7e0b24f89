//! The types of epx: instances and their Ids, keys and operations, commands and replies, places in
//! logs, plans and faults. The definitions of the protocol are in `specs/`. The contracts of all
//! crates are stated in their terms.
#![tactic(auto)]

pub mod command;
pub mod command_keys;
pub mod entry;
pub mod fault;
pub mod id;
pub mod id_list;
pub mod key;
pub mod key_set;
mod key_text;
pub mod limits;
mod long_text;
pub mod memory;
pub mod op;
pub mod place;
pub mod plan;
pub mod reply;
mod short_text;
pub mod small_list;

pub use command::Command;
pub use command_keys::{touched, written};
pub use entry::Entry;
pub use fault::{Fault, Why};
pub use id::Id;
pub use key::Key;
pub use memory::Memory;
pub use op::{Access, Op};
pub use place::Place;
pub use plan::Plan;
pub use reply::{Reply, Values};
pub use small_list::SmallList;
