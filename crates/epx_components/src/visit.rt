//! The progress of the search, node by node.
ghost use Rattle.std.specs.Prelude.{◌≡◌, ◌≢◌, ℕ, ◌<◌, length, slice_index, IfOk};
ghost use Rattle.epx_components.specs.inner.SearchStates.{visit_of};
ghost use Rattle.epx_components.specs.declared.visit.Visit.TheVariants.{Closed};

use epx_types::Memory;
use std::alloc::Global;

/// The progress of the search at a node.
#[derive(Clone, Copy, Debug)]
pub(crate) enum Visit {
    Unseen,
    /// Open, at this position of the row.
    Open(usize),
    /// Finished, in this component.
    Closed(usize),
}

/// Puts nodes into a component.
pub(crate) fn close_nodes(visits: &mut [Visit], nodes: &[usize], component: usize)
    requires { (i : ℕ) → i < length nodes.now → slice_index nodes.now i < length visits.old }
    ensures closed { (i : ℕ) → i < length nodes.now
        → visit_of visits.new (slice_index nodes.now i) ≡ Closed component }
    ensures others { (k : ℕ) → ((i : ℕ) → i < length nodes.now → slice_index nodes.now i ≢ k)
        → visit_of visits.new k ≡ visit_of visits.old k }
{
    for node in nodes {
        visits[*node] = Visit::Closed(component);
    }
}

/// The component of each node, when all nodes are closed.
pub(crate) fn component_numbers(alloc: Global, visits: &[Visit]) -> Result<Vec<usize>, Memory>
    requires { (k : ℕ) → k < length visits.now → (c : ℕ) × (visit_of visits.now k ≡ Closed c) }
    ensures len { IfOk result (λ component. length component.items ≡ length visits.now) }
    ensures closed { IfOk result (λ component. (k : ℕ) → k < length visits.now
        → visit_of visits.now k ≡ Closed (slice_index component.items k)) }
{
    let mut component = Vec::with_capacity(alloc, visits.len())?;
    for visit in visits {
        match visit {
            Visit::Closed(number) => component.push(*number)?,
            _ => unreachable!(),
        }
    }
    Ok(component)
}
