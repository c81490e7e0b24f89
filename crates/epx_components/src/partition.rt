//! The components of a graph's nodes, by number.

/// Strongly connected components with numbers: no edge leads to a component with a greater number.
#[derive(Debug, Drop)]
pub struct Partition {
    /// The component of each node.
    pub component: Vec<usize>,
    /// The nodes, by rising component.
    pub order: Vec<usize>,
    /// The number of components.
    pub count: usize,
}
