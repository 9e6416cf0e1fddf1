//! The minimum spanning forest, by Kruskal's algorithm: the links in key order, each taken that joins two classes.
ghost use Rattle.std.specs.Prelude.{map, IfOk};
ghost use Rattle.ghs_graph.specs.Key.{key_of};
ghost use Rattle.ghs_graph.specs.Links.{IsTree};

use crate::graph::Graph;
use crate::key::Key;
use crate::spanning::{span, span_raw};
use ghs_gr::raw_graph::RawGraph;
use std::alloc::{AllocError, Global};

/// The links of the minimum spanning forest, in key order: a tree, where the graph is connected. It takes
/// O((N + E) log N) steps.
pub fn tree_slow(alloc: Global, graph: &Graph) -> Result<Vec<Key>, AllocError>
    ensures { IfOk result (λ t. IsTree graph.now.keys t.items) }
{
    Ok(span(alloc, graph.nodes(), graph.keys())?.tree)
}

/// The same of the graph of a text, by Kruskal's algorithm too, for a caller that wants no ports.
///
/// ```text
/// let raw = judge(alloc, b"p sp 3 3\na 1 2 7\na 2 3 1\na 1 3 9")?;
/// let tree = tree_of(alloc, &raw)?;
/// // two links of the three: 2 and 3 of weight 1, and 1 and 2 of weight 7
/// ```
pub fn tree_of(alloc: Global, raw: &RawGraph) -> Result<Vec<Key>, AllocError>
    ensures { IfOk result (λ t. IsTree (map key_of raw.now.keys) t.items) }
{
    Ok(span_raw(alloc, raw)?.tree)
}
