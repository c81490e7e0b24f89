//! Replies of commands.
ghost use Rattle.std.specs.Prelude.{◌≡◌};

use std::marker::Model;

/// The values that a command's `get` operations read, in order; None for a key that was absent.
#[derive(Debug, Drop)]
pub struct Values {
    items: Vec<Option<i64>>,
}

impl Model for Values {
    ghost use Rattle.std.specs.Prelude.{List, ℤ, Option};

    ghost Value = { List (Option ℤ) };

    ghost view = { λ v. v.items.items };
}

impl Values {
    /// The values that `get` operations read, in order.
    pub fn new(items: Vec<Option<i64>>) -> Values
        ensures { result ≡ items.items }
    {
        Values { items }
    }

    /// The values in order, borrowed.
    pub fn as_slice(&self) -> &[Option<i64>]
        ensures { result.now ≡ self.now }
    {
        self.items.as_slice()
    }
}

impl PartialEq for Values {
    ghost use Rattle.std.specs.Ordering.{int_eq};
    ghost use Rattle.std.specs.Option.{option_eq};
    ghost use Rattle.std.specs.Cmp.Lexicographic.{pointwise};
    ghost use Rattle.std.proofs.Common.{rules};
    ghost use Rattle.std.specs.Cmp.Rules.{comparing};

    ghost eq = { pointwise (option_eq int_eq) };

    ghost laws = { Prim.search (comparing, rules) };

    fn eq(&self, other: &Values) -> bool {
        self.items == other.items
    }
}

impl Eq for Values {
    ghost use Rattle.std.proofs.Common.{rules};
    ghost use Rattle.std.specs.Cmp.Rules.{comparing};

    ghost laws = { Prim.search (comparing, rules) };
}

/// The reply of a command.
#[derive(Debug, PartialEq, Eq, Drop)]
pub enum Reply {
    Values(Values),
    /// The index of the operation that aborted, from 0.
    Abort(u64),
}
