//! Where the groups of open nodes start.
ghost use Rattle.std.specs.Prelude.{ℕ};
ghost use Rattle.epx_components.specs.inner.Starts.{AreRisingBelow, IsCutAbove};

/// Merges the groups that start after a position of the row into the group of that position.
pub(crate) fn merge_groups(starts: &mut Vec<usize>, position: usize)
    requires { (n : ℕ) × AreRisingBelow starts.old.items n }
    ensures { IsCutAbove position starts.old.items starts.new.items }
{
    while let Some(&start) = starts.last()
        && start > position
    {
        starts.pop();
    }
}
