//! How far a run is, for a person at a terminal: one line on standard error.
#![tactic(auto)]

mod counted_opener;
mod counted_source;
mod job;
mod progress;
mod reporter;
mod threads_alone;

pub use counted_opener::CountedOpener;
pub use counted_source::CountedSource;
pub use job::Job;
pub use progress::Progress;
pub use threads_alone::ThreadsAlone;
