//! Calls of clients.
use epx_types::{Id, Reply};

/// The call of an instance by a client. The times are of one clock.
#[derive(Debug, Drop)]
pub struct ClientCall {
    pub id: Id,
    pub invoked: u64,
    /// None if no answer came.
    pub returned: Option<u64>,
    /// None if no answer came, or if the history does not say which.
    pub answer: Option<Reply>,
}
