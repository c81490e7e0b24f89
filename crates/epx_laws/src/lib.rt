//! Laws that show that the definitions of `epx_types` mean what they should. Each function has an
//! empty body, and its contract is a law.
#![tactic(auto)]

pub mod agreement;
pub mod algorithm;
pub mod commands;
pub mod comparisons;
pub mod conflicts;
pub mod done;
pub mod execution;
pub mod growth;
pub mod levels;
pub mod order;
pub mod outcomes;
pub mod pieces;
pub mod prefixes;
pub mod reaching;
pub mod renaming;
pub mod replicas;
pub mod resumed_runs;
pub mod time;
