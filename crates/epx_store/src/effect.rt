//! The effect of a command: its reply and its writes.
ghost use Rattle.std.specs.Prelude.{◌≡◌};

use epx_types::{Key, Reply};
use std::marker::Model;

/// The written keys, each with its value after the command, or None if it is absent. Contracts see
/// it as a list.
#[derive(Debug, Drop)]
pub struct Writes {
    items: Vec<(Key, Option<i64>)>,
}

impl Model for Writes {
    ghost use Rattle.std.specs.Prelude.{List};
    ghost use Rattle.epx_types.specs.Writes.{Write};

    ghost Value = { List Write };

    ghost view = { λ w. w.items.items };
}

impl Writes {
    /// Returns these writes, in this order.
    pub fn new(items: Vec<(Key, Option<i64>)>) -> Writes
        ensures { result ≡ items.items }
    {
        Writes { items }
    }

    /// Returns the written keys with their values, in their order.
    pub fn as_slice(&self) -> &[(Key, Option<i64>)]
        ensures { result.now ≡ self.now }
    {
        self.items.as_slice()
    }
}

/// The reply of a command and its writes.
#[derive(Debug, Drop)]
pub struct Effect {
    pub reply: Reply,
    pub writes: Writes,
}
