//! Tests of single calls of each crate, with values that were worked out by hand. They check that
//! the clauses mean what they should, and the texts that no clause states. Each call that needs
//! memory must succeed if there is enough.
//!
//! The tests are a crate of their own, so that no library has to be proved again for them. A test
//! of stores, effects or commands whose allocation is refused ends with out of memory, and checks
//! that what it lent is unchanged.
#![tactic(auto)]

#[cfg(test)]
mod bases;
#[cfg(test)]
mod claims;
#[cfg(test)]
#[cfg(test)]
mod devices;
#[cfg(test)]
mod effects;
#[cfg(test)]
mod entries;
#[cfg(test)]
mod executor;
#[cfg(test)]
mod fixtures;
#[cfg(test)]
mod gates;
#[cfg(test)]
mod graphs;
#[cfg(test)]
mod lines;
#[cfg(test)]
mod lists;
#[cfg(test)]
mod orders;
#[cfg(test)]
mod read_logs;
#[cfg(test)]
mod run_order;
#[cfg(test)]
mod seeds;
#[cfg(test)]
mod traces;
#[cfg(test)]
mod vocabulary;
