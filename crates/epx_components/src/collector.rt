//! What a pass over the components collects.
ghost use Rattle.std.specs.Prelude.{◌↔◌, ◌⊎◌, ℕ, IsTrue};

/// Says how the values of components are added up. A value represents a set of numbers: a flag all
/// of them or none, a word the positions of its bits, a number those below it.
pub trait Collector {
    type Value: Copy + Drop;

    /// A value where there is no component.
    ghost none: { Self.Value };

    /// A number is in the set of a value.
    ghost has: { ℕ → Self.Value → Type 0 };

    /// A component of this number and value gives a number to those with an edge to it.
    ghost gives: { Self → ℕ → Self.Value → ℕ → Type 0 };

    /// The numbers of a component for which this can be called.
    ghost can_add: { Self → ℕ → Type 0 };

    /// Adds to a value what another component gives.
    fn add(&self, value: Self::Value, other: usize, below: Self::Value) -> Self::Value
        requires { can_add self.now other }
        ensures { (t : ℕ) → has t result ↔ (has t value ⊎ gives self.now other below t) };

    /// Whether nothing can be added.
    fn is_full(&self, _value: Self::Value) -> bool
        ensures { IsTrue result → (t : ℕ) → has t _value }
    {
        false
    }
}
