//! Names of instances and of keys, and numbers, as a person writes them, and the tasks that name
//! them.
#![tactic(auto)]

mod id_name;
mod key_name;
mod task;

pub use id_name::{read_id, read_number};
pub use key_name::KeyName;
pub use task::Task;
