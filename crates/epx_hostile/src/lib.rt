//! Tests of whole runs over hostile bytes, over logs of the greatest size, and over devices that
//! are interrupted. Each must end with the right answer or the fault that the formats state.
//!
//! The tests are a crate of their own, so that no library has to be proved again for them.
#![tactic(auto)]

#[cfg(test)]
mod bytes;
#[cfg(test)]
mod devices;
#[cfg(test)]
mod expected_runs;
