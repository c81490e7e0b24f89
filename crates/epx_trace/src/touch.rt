//! What an executed command does with a key.
use epx_types::Id;

/// A write or a read of a key by an executed command. None means that the key is absent.
#[derive(Clone, Copy, Debug, PartialEq, Eq)]
pub enum Touch {
    /// The command writes the key. The values are those before the command and after it.
    Write {
        id: Id,
        before: Option<i64>,
        after: Option<i64>,
    },
    /// The command has the key in its text, and does not write it or aborts.
    Read {
        id: Id,
        value: Option<i64>,
    },
}
