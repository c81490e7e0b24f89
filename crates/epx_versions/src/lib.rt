//! The versions of the instances of logs: each different instance that lines commit, once, with
//! the lines that commit it, and the bad lines.
#![tactic(auto)]

mod hashed_version;
mod noted;
mod read_line;
mod version;
mod version_notes;
mod versions;

pub use noted::{Noted, NotedBadLine, NotedLine};
pub use version_notes::VersionNotes;
pub use versions::Versions;
