//! An executor that lives as long as a replica. It takes committed instances as they come, and
//! executes those that become ready.
#![tactic(auto)]

mod batch;
mod blockers;
mod call_lines;
mod choose;
mod done_runs;
mod execute_all;
mod executor;
pub mod laws;
mod pending;
mod refile;

pub use done_runs::{DoneRuns, Run};
pub use executor::Executor;
