//! Commands to execute.
use crate::id::Id;
use crate::op::Op;

/// The command of an instance, with its operations borrowed.
#[derive(Clone, Copy, Debug)]
pub struct Command<'a> {
    pub id: Id,
    pub ops: &'a [Op],
}
