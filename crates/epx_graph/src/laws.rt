//! Laws of the graph of a map: each function's contract is a law.
ghost use Rattle.epx_graph.specs.GraphLaws.{GraphExists, GraphIsUnique};

/// A committed map has a graph.
pub fn graph_exists()
    ensures { GraphExists }
{}

/// A map has at most one graph.
pub fn graph_is_unique()
    ensures { GraphIsUnique }
{}
