//! Joins the results of pieces.
ghost use Rattle.std.specs.Prelude.{◌≡◌, ◌++◌, flat_map, OnOk};

use epx_types::Memory;

/// Appends the items of all parts, one part after another. Runs in time linear in the items of the
/// parts. `Memory` if the list cannot grow; it may have some of the parts then.
pub fn append_parts<T: Drop>(items: &mut Vec<T>, parts: Vec<Vec<T>>) -> Result<(), Memory>
    ensures { OnOk result (items.new.items ≡ items.old.items
        ++ flat_map (λ part. part.items) parts.items) }
{
    for mut part in parts {
        items.append(&mut part)?;
    }
    Ok(())
}
